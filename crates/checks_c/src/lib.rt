// What C calls of checks: each function of it, with its clauses.
#![tactic(auto)]

ghost use Rattle.std.specs.Prelude.{◌≡◌};
ghost use Rattle.header.specs.Check.{check as header_check};
ghost use Rattle.bus.specs.Routing.{check as routing_check};

// The check of a cell header, which is the number that its four bytes say.
#[unsafe(no_mangle)]
pub extern "C" fn plevandor_header_check(header: u32) -> u8
    ensures { result ≡ header_check header }
{
    checks::plevandor_header_check(header)
}

// The check of a routing header's upper 12 bits; bits above them do not count.
#[unsafe(no_mangle)]
pub extern "C" fn plevandor_routing_check(upper: u16) -> u8
    ensures { result ≡ routing_check upper }
{
    checks::plevandor_routing_check(upper)
}
