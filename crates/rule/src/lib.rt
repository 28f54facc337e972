// Rules as bytes: how they are read, and the check that passes exactly those that the sheet allows.
#![tactic(auto)]

pub mod check;
pub mod fault;
pub mod flags;
pub mod mark;
pub mod record;
pub mod rule;
pub mod tests;

ghost use Rattle.rule.specs.Allowed as law;
ghost use Rattle.rule.specs.Run as run;
ghost use Rattle.rule.specs.Samples as samples;
ghost use Rattle.rule.specs.Trials as trial;

// The check passes exactly the rules that the sheet allows.
pub fn passes_exactly()
    ensures { law.PassesExactly }
{}

// Its fault is the first test that fails, of the first record that fails one.
pub fn first_fails()
    ensures { trial.FirstFails }
{}

// Rules worked by hand: the definitions compute the same answers.
pub fn worked_rules()
    ensures { samples.Worked }
{}

// A checked rule's run on the machine is stopped by want of a cell alone, and leaves exactly what its head declares.
pub fn checked_runs()
    ensures { run.CheckedRuns }
{}
