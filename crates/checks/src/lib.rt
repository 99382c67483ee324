// The two header checks for a recovery loader, and nothing else; checks_c has them for C.
ghost use Rattle.std.specs.Prelude.{◌≡◌};
ghost use Rattle.header.specs.Check.{check as header_check};
ghost use Rattle.bus.specs.Routing.{check as routing_check};

// The check of a cell header, which is the number that its four bytes say.
pub fn plevandor_header_check(header: u32) -> u8
    ensures { result ≡ header_check header }
{
    header::check(header)
}

// The check of a routing header's upper 12 bits; bits above them do not count.
pub fn plevandor_routing_check(upper: u16) -> u8
    ensures { result ≡ routing_check upper }
{
    bus::check(upper)
}
