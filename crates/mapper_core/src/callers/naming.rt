//! How many callers there are.
ghost use Rattle.std.specs.{Prelude.{◌≤◌, ℕ}, List.{AllByRecursion}};
ghost use Rattle.scan_log.specs.Plain.{IsPlain};
ghost use Rattle.mapper_core.specs.Meetings.{HasCaller};

use scan_log::Command;

// Caller 1 for a barrier.
fn named(command: &Command) -> u8
    requires { IsPlain command.now }
    ensures from { 1 ≤ result }
    ensures to { result ≤ 8 }
    ensures own { HasCaller result command.now }
    ensures no_more { (n : ℕ) → 1 ≤ n → HasCaller n command.now → result ≤ n }
{
    command.caller().unwrap_or(1)
}

/// The greatest caller that is named, and at least 1.
pub fn callers_in(commands: &[Command]) -> u8
    requires { AllByRecursion IsPlain commands.now }
    ensures from { 1 ≤ result }
    ensures to { result ≤ 8 }
    ensures named { AllByRecursion (HasCaller result) commands.now }
    ensures no_more { (n : ℕ) → 1 ≤ n → AllByRecursion (HasCaller n) commands.now → result ≤ n }
{
    let mut most = 1;
    for command in commands {
        let own = named(command);
        if own > most {
            most = own;
        }
    }
    most
}
