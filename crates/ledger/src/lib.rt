// The ledger of a card and the promise of every run, proved with no card at hand.
#![tactic(auto)]

ghost use Rattle.ledger.specs.Promise.{PromiseStands};
ghost use Rattle.ledger.specs.NewCard.{NewCardsRead, SmallCardReads};

/// Every card of a lawful code whose allowance is at most the radius keeps the promise.
pub fn promise_stands()
    ensures { PromiseStands }
{}

/// The promise is of runs that there are: every such card takes each message while it is new and reads it back, and there is one.
pub fn new_cards_read()
    ensures each { NewCardsRead }
    ensures one { SmallCardReads }
{}
