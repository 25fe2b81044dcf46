//! What holds of every framed list, of every path made simple, and of every run of a transformer of Windows
//! paths.
ghost use Rattle.std.specs.Prelude.{◌≡◌, ◌++◌, ◌<◌, ◌≤◌, ◌^◌, [], length, true, Bool, List, ℕ, Ok, Option};
ghost use Rattle.std.specs.Prelude.{None};
ghost use Rattle.path_pkg.specs.Framed.{Frame, IsFramedList};
ghost use Rattle.path_pkg.specs.Records.{RecordsFit};
ghost use Rattle.path_pkg.specs.Simple.{IsSimple, IsFreeOfLinks};
ghost use Rattle.path_pkg.specs.Simplified.{simplified, simple_path};
ghost use Rattle.path_pkg.specs.Spot.{Spot};
ghost use Rattle.path_pkg.specs.Told.{Nodes};
ghost use Rattle.path_pkg.specs.Written.{content_in, frames, pieces, up_to_gone, AreThere};
ghost use Rattle.path_pkg.specs.declared.record.Record.{Record};
ghost use Rattle.path_pkg.specs.Windows.{mapped_all, local_of, last_sent_as};

/// No framed list begins another: where two of them stand in front of one text, they are one, with the same
/// records.
pub fn no_list_begins_another()
    ensures one { (a b rest more : List ℕ) (fs gs : List Frame) → IsFramedList a fs → IsFramedList b gs
        → a ++ rest ≡ b ++ more → (fs ≡ gs) × (a ≡ b) × (rest ≡ more) }
{}

/// Whatever paths a transformer mapped, the path that it gives for a text is the last that it mapped to it.
pub fn the_last_path_is_given()
    ensures last { (paths : List (List ℕ × Option (List ℕ))) (text : List ℕ)
        → local_of (mapped_all [] paths) text ≡ last_sent_as text None paths }
{}

/// What a package is written as, where no file of it is gone, is a framed list, of directories, then files,
/// then links, each by path in byte order.
pub fn packages_are_framed_lists()
    ensures list { (t : Nodes) (records : List Record) → RecordsFit records
        → ((path : List ℕ) → length (content_in t path) < 2 ^ 64) → AreThere (pieces t records)
        → IsFramedList (up_to_gone (pieces t records)) (frames t records) }
{}

/// A path made simple has no empty part, no `.` and no `..`.
pub fn simple_paths_are_names()
    ensures simple { (recording : Bool) (t : Nodes) (path text : List ℕ)
        → simple_path recording t path ≡ Ok text → IsSimple text }
{}

/// With recording no link stands at a path made simple, nor at a front of it.
pub fn recorded_paths_have_no_link()
    ensures free { (t : Nodes) (path text : List ℕ) → simple_path true t path ≡ Ok text
        → IsFreeOfLinks t text }
{}

/// A path made simple is made so to itself.
pub fn simple_paths_stay()
    ensures same { (recording : Bool) (t : Nodes) (path text : List ℕ)
        → simple_path recording t path ≡ Ok text → simple_path recording t text ≡ Ok text }
{}

/// On one path at most forty links are noted.
pub fn at_most_forty_links_are_noted()
    ensures noted { (recording : Bool) (t : Nodes) (path : List ℕ) (s : Spot)
        → simplified recording t path ≡ Ok s → length s.links ≤ 40 }
{}
