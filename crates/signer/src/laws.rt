//! Laws of the definitions, which do nothing.
ghost use Rattle.std.specs.Prelude.{List};
ghost use Rattle.leaf_plans.specs.Book.{Book, IsBook};
ghost use Rattle.signer.specs.OneTime.{AreOneTime, Event, Runs, Work, begun};

use leaf_book::never_twice;

/// A law, which does nothing: over every list of events of a book (registrations, `sign_message`, `sign_below` and the calls that sign a
/// file, by one level or by two, with whatever outcome, a crash inside of one or elsewhere, reopening), whatever widths and heights they name,
/// no one-time key signs two messages: two signatures by one seed and one q are of one message, and the same bytes (RFC 8554, section 9). Of
/// a signature of two levels this is so for both of its signatures: no leaf of a top tree signs the keys of two trees, and none of a tree
/// below two messages. The first book may be any that is in order, also one in which an older release has registered two trees of a seed.
pub fn one_time_keys()
    ensures { (b : Book) (events : List Event) (w : Work) → IsBook b → Runs (begun b) events w → AreOneTime w.made }
{
    never_twice();
}
