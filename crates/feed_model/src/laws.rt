//! Laws of databases that move: what the content of layout 1 means now, and that of a feed with less room.
ghost use Rattle.std.specs.Prelude.{◌≤◌, ◌↔◌, ℕ, List, Option};
ghost use Rattle.feed_names.specs.ReleaseName.{Name};
ghost use Rattle.feed_model.specs.History.{History, Reports};
ghost use Rattle.feed_model.specs.Reply.{IsLegalWith, max_held};
ghost use Rattle.feed_model.specs.Content.{Content, IsContent, within};
ghost use Rattle.feed_model.specs.Earlier.{AreExplained, IsEarlierContent, IsSameRelease, without_refused};
ghost use Rattle.feed_model.specs.Larger.{IsMovedUp, IsNeverFull, without_full};

/// Records that were a content of a history become a content of the same history once they have the reasons of their
/// files, except that the offers refused as too large are left out.
pub fn contents_move()
    ensures { (c d : Content) (h : History) → IsEarlierContent c h → AreExplained c d
        → IsContent (within max_held d) (without_refused h) }
{}

/// Without those offers, the same release is reported for each package.
pub fn reports_stay()
    ensures { (h : History) (package_name : List ℕ) (o : Option Name)
        → Reports h package_name o ↔ Reports (without_refused h) package_name o }
{}

/// Without those offers, each release has the same size, the same bytes and the same file, and is held or not as
/// before.
pub fn releases_stay()
    ensures { (h : History) (n : Name) → IsSameRelease h (without_refused h) n }
{}

/// A history that is legal for a feed is legal for one that may hold more releases, up to its first refusal as `Full`.
pub fn histories_move_up()
    ensures { (small large : ℕ) (h : History) → small ≤ large → IsLegalWith small h → IsNeverFull h
        → IsLegalWith large h }
{}

/// The records of a feed are those of one that may have more, which has the same history without the offers that were
/// refused as `Full`. So a database needs no change when its feed gets more room.
pub fn contents_move_up()
    ensures { (small large : ℕ) (c : Content) (h : History) → small ≤ large → IsContent (within small c) h
        → IsMovedUp large c h (without_full h) }
{}
