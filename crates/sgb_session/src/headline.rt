//! The headline: what sessions, their journals and saved texts keep, in one place.
ghost use Rattle.std.specs.Prelude.{◌≡◌, ◌++◌, ◌∷◌, [], List, Bool, true, Ok, Some};
ghost use Rattle.sgb_graph.specs.Graph.{GraphOf, IsGraph};
ghost use Rattle.sgb_graph.specs.Honest.{is_honest};
ghost use Rattle.sgb_script.specs.declared.command.Command.{Command};
ghost use Rattle.sgb_session.specs.declared.reply.Delta.{Delta};
ghost use Rattle.sgb_session.specs.declared.reply.Reply.{Reply};
ghost use Rattle.sgb_session.specs.Command.{step, before};
ghost use Rattle.sgb_session.specs.State.{State, empty};
ghost use Rattle.sgb_text.specs.declared.restoring.CheckRule.{CheckRule};
ghost use Rattle.sgb_text.specs.Read.{read_as};
ghost use Rattle.sgb_text.specs.Save.{text_of};
ghost use Rattle.sgb_undo.specs.declared.runs.Event.{Event};
ghost use Rattle.sgb_undo.specs.Events.{accepted_of, after_all, lists_of};
ghost use Rattle.sgb_undo.specs.History.{History, IsJournal, Undoes};
ghost use Rattle.sgb_undo.specs.Outcome.{Accepted};
ghost use Rattle.sgb_undo.specs.Replay.{fold};

use sgb_text::{reading_law, texts_read_back};

/// The headline of this library. Every call of a [`Journal`](sgb_undo::Journal) leaves it sound (`IsJournal`), and
/// [`Session::apply`](crate::Session) is `step`. So for a journal over a session that began empty:
///
/// - after any list of commands, undos and redos, whichever of them were accepted, its graphs and its generator are
///   exactly those that the standing commands give, by `step`, from the empty session;
/// - an undo, which is refused only where nothing stands, gives back the graphs and the generator from which the last
///   standing command led here;
/// - and the saved text of a graph whose fields are honest is read as that very graph, under both rules.
pub fn headline_law()
    ensures standing { (events : List (Event Command)) (answers : List Bool) (j : History State Command Delta)
        → IsJournal step before j → j.start ≡ empty → lists_of j ≡ after_all (accepted_of events answers) ([], [])
        → fold step empty (after_all (accepted_of events answers) ([], [])).0 ≡ Some j.machine }
    ensures undo { (j k : History State Command Delta) → IsJournal step before k → k.start ≡ empty → Undoes step before j k
        → (fold step empty k.standing ≡ Some k.machine) × (c : Command) × (d : Delta) × (r : Reply)
        × (j.standing ≡ k.standing ++ c ∷ []) × (step k.machine c ≡ Accepted j.machine d r) }
    ensures text { (g : GraphOf) (rule : CheckRule) → IsGraph g → is_honest g ≡ true → read_as rule (text_of g) ≡ Ok g }
{
    texts_read_back();
    reading_law();
}
