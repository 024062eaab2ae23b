// Laws of the definitions, which do nothing.
ghost use Rattle.sqlite_trees.specs.Tree.{Trees};
ghost use Rattle.repository_rows.specs.Contents.{Contents};
ghost use Rattle.table_rows.specs.Tables.{HoldsTables, AreSame, IsFit};

/// A law, which does nothing: the rows of a table are a set, so the same trees hold the same rows in any order.
pub fn rows_are_sets()
    ensures { (trees : Trees) (t u : Contents) → AreSame t u → HoldsTables trees t → HoldsTables trees u }
{}

/// A law, which does nothing: trees hold at most one set of rows that fit their columns.
pub fn one_contents()
    ensures { (trees : Trees) (t u : Contents) → IsFit t → IsFit u → HoldsTables trees t → HoldsTables trees u → AreSame t u }
{}
