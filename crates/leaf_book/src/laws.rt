//! Laws of the definitions, which do nothing.
ghost use Rattle.std.specs.Prelude.{List, Result};
ghost use Rattle.sqlite_trees.specs.Tree.{Trees};
ghost use Rattle.leaf_plans.specs.Book.{AreSame, Book, IsBook};
ghost use Rattle.leaf_book.specs.Rows.{HoldsBook, OpensTo, Reopens, TreesStand};
ghost use Rattle.leaf_book.specs.Runs.{Event, NeverTwice, Runs, World, begun};

use crate::faults::BookFault;

/// A law, which does nothing: over every list of events of a book (register, reserve, sign, a crash before or after the commit of
/// the call in hand, reopening) the leaf history only grows, from each moment to each later one. It holds at most one message for a
/// leaf of a key and at most one leaf of a key for a message. Two signatures of the list with one leaf of a key are of the same
/// message, and those made from the same seed are the same bytes.
pub fn never_twice()
    ensures { (b : Book) (early late : List Event) (v w : World) → IsBook b → Runs (begun b) early v → Runs v late w → NeverTwice v w }
{}

/// A law, which does nothing: the rows of the two tables are those of one book only, in any order.
pub fn one_book()
    ensures { (trees : Trees) (b c : Book) → HoldsBook trees b → HoldsBook trees c → AreSame b c }
{}

/// A law, which does nothing: trees stand for one book. So whatever an opening answers over them is this book, faults of memory and of the
/// database aside.
pub fn reopens()
    ensures { (trees : Trees) (b : Book) (r : Result Book BookFault) → IsBook b → TreesStand trees b → OpensTo trees r → Reopens b r }
{}
