// What a customer may count on: what an event leaves alone, what befalls each cell, that held cells are held, that frames go on. It has no function of its own.
