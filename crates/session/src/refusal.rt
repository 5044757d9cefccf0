// Why a step is not done.
ghost use Rattle.std.specs.Prelude.{◌≡◌, ℕ, List, map, option_map};
ghost use Rattle.certificates.specs.Shown.{step_shown};
ghost use Rattle.session.specs.Refused.{step_told, rule_told, group_told};

use certificates::Certificate;
use commands::Condition;
use rb_base::Memory;

/// Why a step is not done. The image shows the same as before then, and its history is the same.
#[derive(Clone, Copy)]
pub enum StepRefusal {
    /// The first condition that is false.
    Condition(Condition),
    /// Want of memory.
    Memory,
}

impl From<Memory> for StepRefusal {
    ghost use Rattle.session.specs.declared.refusal.StepRefusal.TheVariants as refusal;

    ghost from_gives = { λ _ e. e ≡ refusal.Memory };

    fn from(_error: Memory) -> StepRefusal {
        StepRefusal::Memory
    }
}

/// Why a group is not done. The image shows the same as before then, and its history is the same.
#[derive(Clone, Copy)]
pub enum GroupRefusal<'a> {
    /// The first that is refused, by its number from 1, and its first condition that is false.
    Condition {
        nth: usize,
        condition: Condition,
    },
    /// The first that is refused, by its number from 1, is a rule that this certificate of it does not derive.
    NotDerived {
        nth: usize,
        certificate: &'a Certificate,
    },
    /// Want of memory.
    Memory,
}

impl From<Memory> for GroupRefusal<'_> {
    ghost use Rattle.session.specs.declared.refusal.GroupRefusal.TheVariants as refusal;

    ghost from_gives = { λ _ e. e ≡ refusal.Memory };

    fn from(_error: Memory) -> Self {
        GroupRefusal::Memory
    }
}

/// Why a rule is not applied. The image shows the same as before then, and its history is the same.
#[derive(Clone, Copy)]
pub enum RuleRefusal {
    /// The first condition that is false.
    Condition(Condition),
    /// The certificate does not derive the rule.
    NotDerived,
    /// Want of memory.
    Memory,
}

impl From<Memory> for RuleRefusal {
    ghost use Rattle.session.specs.declared.refusal.RuleRefusal.TheVariants as refusal;

    ghost from_gives = { λ _ e. e ≡ refusal.Memory };

    fn from(_error: Memory) -> RuleRefusal {
        RuleRefusal::Memory
    }
}

impl StepRefusal {
    /// Why a group is not done whose action of this number is refused so.
    pub(crate) fn at<'a>(self, nth: usize) -> GroupRefusal<'a>
        ensures { (names : List (List ℕ)) → group_told names result ≡ option_map (λ q. (nth, q)) (step_told names self) }
    {
        match self {
            StepRefusal::Condition(condition) => GroupRefusal::Condition { nth, condition },
            StepRefusal::Memory => GroupRefusal::Memory,
        }
    }
}

impl RuleRefusal {
    /// Why a group is not done whose rule of this number, with this certificate, is refused so.
    pub(crate) fn at(self, nth: usize, certificate: &Certificate) -> GroupRefusal<'_>
        ensures { (names : List (List ℕ)) → group_told names result ≡ option_map (λ q. (nth, q)) (rule_told (map step_shown certificate.now.steps.items) names self) }
    {
        match self {
            RuleRefusal::Condition(condition) => GroupRefusal::Condition { nth, condition },
            RuleRefusal::NotDerived => GroupRefusal::NotDerived { nth, certificate },
            RuleRefusal::Memory => GroupRefusal::Memory,
        }
    }
}
