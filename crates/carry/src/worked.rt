//! Worked cases of the rules, shown of the rules' definitions.
ghost use Rattle.carry.specs.Worked.{WorkedRules};

/// Answers nothing; its contract is the worked cases.
pub fn worked_rules()
    ensures { WorkedRules }
{}
