// Theorems about the plain machine. Each function has nothing to do but to carry one in its contract.
ghost use Rattle.plain.specs.Examples.{Examples};
ghost use Rattle.plain.specs.Laws.{EditsSpell, RunsKeep, TokensCover};

// The definitions give what they should on small texts.
pub fn examples_hold()
    ensures { Examples }
{}

// What the edits mean for the text.
pub fn edits_spell()
    ensures { EditsSpell }
{}

// What no list of calls breaks, whatever measure is added.
pub fn runs_keep<V>()
    ensures { RunsKeep V }
{}

// Tokens cover the text, and brackets are tokens that nest.
pub fn tokens_cover()
    ensures { TokensCover }
{}
