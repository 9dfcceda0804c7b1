// Breakpoints.
ghost use Rattle.std.specs.Prelude.{◌≡◌};
ghost use Rattle.instruction_set.specs.Breakpoints.{has_breakpoint};

/// Whether a byte address is one of these breakpoints.
pub fn has_breakpoint(a: u32, breakpoints: &[u32]) -> bool
    ensures { result ≡ has_breakpoint a breakpoints.now }
{
    breakpoints.iter().any(|b| *b == a)
}
