ghost use Rattle.std.specs.Prelude.{ℕ, List};
ghost use Rattle.psac_marks.specs.declared.view.MarksView.{MarksView};
ghost use Rattle.psac_marks.specs.Marked.{Marked};
ghost use Rattle.psac_marks.specs.Promised.{Promised};

/// A law, with nothing to run. Where the rule of marks holds of words and views, some pass has each node that is out and
/// none has a free one, a node has one owner, who owns its children too but for dropped ones, a mark has one holder, a
/// busy node is marked, marks are closed upwards but below a climb, and claims are apart.
pub fn marks_are_closed()
    ensures { (nodes : ℕ) (words : List ℕ) (views : List MarksView) → Marked nodes words views → Promised nodes words views }
{}
