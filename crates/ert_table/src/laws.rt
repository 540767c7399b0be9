//! Laws of calls that take several steps, and of the order of steps.
ghost use Rattle.ert_table.specs.{Laws.{LawOfSteps, LawOfCalls, LawOfWholePasses}, Order.{LawOfOneHistory, LawOfKnowledge, LawOfStepOrder, LawOfTwoSteps}};

/// A step is a call with one entry, and calls one after the other are a call with the entries of both. The
/// front of a pass that holds every actor grows by just the entries of a call.
pub fn calls_take_place()
    ensures steps { LawOfSteps }
    ensures calls { LawOfCalls }
    ensures whole { LawOfWholePasses }
{}

/// A step that is over before another begins stands before it in every later history of the desk, whoever made
/// the two, also if they never synchronised; and so does all that any pass knew when the other began. What some
/// pass knows stays known, whatever steps are made and however passes are divided and put together. What two passes
/// know are beginnings of one legal history.
///
/// It speaks of the moments between the steps of a table at which the rule holds. That a program's run is such a
/// row of moments is what the contract of `atomic_table` means.
pub fn steps_stand_in_order()
    ensures one { LawOfOneHistory }
    ensures known { LawOfKnowledge }
    ensures before { LawOfStepOrder }
    ensures order { LawOfTwoSteps }
{}
