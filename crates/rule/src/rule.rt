ghost use Rattle.std.specs.Prelude.{◌≡◌, ℕ, true, List, is_ok, Ok, Err, MatchResult};
ghost use Rattle.rule.specs.Read.{head_at};
ghost use Rattle.rule.specs.Check.{answer};
ghost use Rattle.rule.specs.Shown.{head_of};

use crate::check::check;
use crate::fault::RuleFault;
use crate::record::{Head, read_head};

// A rule that passed the check, with its bytes. Nothing else makes one, so nothing unchecked can be run.
#[derive(Drop)]
pub struct Rule {
    bytes: Vec<u8>,
    ghost passed: { is_ok (answer bytes.items) ≡ true },
}

// Bytes that were refused come back, with the fault.
#[derive(Drop)]
pub struct BadRule {
    pub bytes: Vec<u8>,
    pub fault: RuleFault,
}

impl Rule {
    // Checks the bytes; a refusal hands them back.
    pub fn new(bytes: Vec<u8>) -> Result<Rule, BadRule>
        ensures { MatchResult result (λ x. x.bytes.items ≡ bytes.items) (λ e. (e.bytes.items ≡ bytes.items) × (answer bytes.items ≡ Err e.fault)) }
    {
        match check(&bytes) {
            Ok(_) => Ok(Rule { bytes }),
            Err(fault) => Err(BadRule { bytes, fault }),
        }
    }

    // Its in, out and own.
    pub fn head(&self) -> Head
        ensures { (rest : List ℕ) × (head_at self.now.bytes.items ≡ Ok (head_of result, rest)) }
    {
        match read_head(&self.bytes) {
            Ok((head, _)) => head,
            Err(_) => unreachable(),
        }
    }

    pub fn bytes(&self) -> &[u8]
        ensures { result.now ≡ self.now.bytes.items }
    {
        &self.bytes
    }
}
