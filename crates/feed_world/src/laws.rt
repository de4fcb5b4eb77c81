//! Laws of every transcript, each stated as the contract of a function with an empty body.
ghost use Rattle.std.specs.Prelude.{◌≡◌, ℕ, List, Option, Some};
ghost use Rattle.feed_names.specs.ReleaseName.{Name};
ghost use Rattle.feed_model.specs.History.{IsFile, IsWhole};
ghost use Rattle.feed_model.specs.Reply.{IsLegal};
ghost use Rattle.feed_world.specs.World.{World, Node, WorldEvent, Report, Line, Active, Happens, Shows, node_at, start};
ghost use Rattle.feed_world.specs.Headline.{IsHeadline, HasAlike, IsLatest, IsUpAt, file_of};

/// Two nodes that report the same release give the same answers, those of its published file; and no node reports an
/// older release later.
pub fn headline()
    ensures { (count : ℕ) (events : List WorldEvent) (lines : List Line) (w : World)
        → Shows (start count) events lines w → IsHeadline events lines }
{}

/// Each node's history is legal, and a complete file in it is the published one.
pub fn histories()
    ensures { (count : ℕ) (events : List WorldEvent) (lines : List Line) (w : World) (i : ℕ) (x : Node) (n : Name)
        (file : List ℕ) → Shows (start count) events lines w → node_at w.nodes i ≡ Some x → IsLegal x.history
        × (IsFile x.history n file → file_of events n ≡ Some file) }
{}

/// Two nodes that are up, and have recorded the same sizes and kept the same bytes of a package's releases, in any
/// order, report the same release of it.
pub fn order_is_free()
    ensures { (w u v : World) (i j : ℕ) (package_name : List ℕ) (x y : Node) (l m : Line) → IsUpAt w i x → IsUpAt w j y
        → HasAlike x.history y.history package_name → Happens w (Report i package_name) l u
        → Happens w (Report j package_name) m v
        → l ≡ m }
{}

/// A node that is up, and has every byte of a package's latest good published file, reports its release.
pub fn latest_is_reported()
    ensures { (count : ℕ) (events : List WorldEvent) (lines : List Line) (w v : World) (i : ℕ) (x : Node) (n : Name)
        (line : Line) → Shows (start count) events lines w → IsUpAt w i x → IsWhole x.history n
        → IsLatest events n → Happens w (Report i n.package_name) line v → line ≡ Active n }
{}
