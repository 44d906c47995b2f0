//! What holds of a table over every list of calls. It speaks of the definitions alone, and a call of it does nothing.
ghost use Rattle.std.specs.Prelude.{List, ◌<◌, All};
ghost use Rattle.std.specs.List.Sorted.{IsStrictlyIncreasing};
ghost use Rattle.port_table.specs.Ports.{Ports};
ghost use Rattle.port_table.specs.Calls.{PortCall, numbers_given};

/// A law: over every list of calls on a table, each number that `open` returns is above all that it returned
/// before, and above all that the table gave before these calls.
pub fn numbers_are_never_used_again()
    ensures rising { (ports : Ports) (calls : List PortCall)
        → IsStrictlyIncreasing (numbers_given ports calls) }
    ensures above { (ports : Ports) (calls : List PortCall)
        → All (λ number. ports.opened < number) (numbers_given ports calls) }
{}
