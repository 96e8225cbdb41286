ghost use Rattle.journal_model.specs.DefinedReply.{DefinedReplyIsVerdict};
ghost use Rattle.journal_model.specs.Durable.{LawOfSurvival, LawOfAnswered, LawOfAcknowledged};
ghost use Rattle.journal_model.specs.HeldSlots.{LawOfSlots};
ghost use Rattle.journal_model.specs.Sealed.{SealedKeysOpen};

/// Where a command has a defined reply, it is the verdict of each machine whose log makes the map.
pub fn law_of_defined_reply()
    ensures { DefinedReplyIsVerdict }
{}

/// A durable change stays in every later legal journal, and what is durable grows by changes behind it.
pub fn law_of_survival()
    ensures { LawOfSurvival }
{}

/// A create or a protect that is told that it did its work has its change among the durable ones.
pub fn law_of_answered()
    ensures { LawOfAnswered }
{}

/// Each change of a command that is told what came of its work is among the durable ones.
pub fn law_of_acknowledged()
    ensures { LawOfAcknowledged }
{}

/// A sealed key has 92 bytes, and its wrapping key opens it to the key.
pub fn law_of_sealed_keys()
    ensures { SealedKeysOpen }
{}

/// Each user whom the surviving changes of a legal journal make has a slot.
pub fn law_of_slots()
    ensures { LawOfSlots }
{}
