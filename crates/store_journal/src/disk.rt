//! A file as a journal sees it.
ghost use Rattle.std.specs.Prelude.{◌≡◌, ◌<◌, ◌≤◌, ◌⊎◌, ℕ, List, [], Option, Ok, length, take, drop, IfOk, OnOk, OnErr, IfSome, IsSome, option_map};
ghost use Rattle.weave_io.specs.Counts.{HasRisen};
ghost use Rattle.store_journal.specs.Disk.{Torn, ImagesFollow, AddsNone, IsSynced, ReadsAs, Elapses, written_at};

use weave_io::Failed;

/// Keeps bytes over a crash, as far as they were synced.
pub trait Disk {
    // What a read gives, if the disk says its bytes.
    ghost seen: { Self → Option (List ℕ) };

    // The images that a crash now may leave.
    ghost images: { Self → List ℕ → Type 0 };

    // The moment, a number that never falls.
    ghost moment: { Self → ℕ };

    // The images that a crash at some moment since that one might have left, within calls too.
    ghost images_since: { Self → ℕ → List ℕ → Type 0 };

    // A count of faults, which never falls and rises when a call fails.
    ghost faults: { Self → ℕ };

    /// How many bytes there are.
    fn len(&mut self) -> Result<u64, Failed>
        ensures count { IfOk result (λ n. IfSome (seen self.old) (λ bytes. n ≡ length bytes)) }
        ensures same { OnOk result (seen self.new ≡ seen self.old) }
        ensures crash { AddsNone (images self.old) (images self.new) }
        ensures time { Elapses (moment self.old) (moment self.new) (images_since self.old) (images_since self.new)
            (images self.new) }
        ensures told { IsSome (seen self.old) → IsSome (seen self.new) }
        ensures failed { OnErr result (HasRisen (faults self.old) (faults self.new)) }
        ensures no_fault { OnOk result (faults self.new ≡ faults self.old) }
        ensures never_falls { faults self.old ≤ faults self.new };

    /// Puts the bytes from `at` on at the start of `buf`, and answers how many. For a `buf` that isn't empty, none
    /// come exactly at the end.
    fn read(&mut self, at: u64, buf: &mut [u8]) -> Result<usize, Failed>
        ensures within { IfOk result (λ n. n ≤ length buf.new) }
        ensures long { length buf.new ≡ length buf.old }
        ensures bytes { IfOk result (λ n. ReadsAs (seen self.old) at (take n buf.new)) }
        ensures end { result ≡ Ok 0 → 0 < length buf.new → IfSome (seen self.old) (λ bytes. length bytes ≤ at) }
        ensures same { OnOk result (seen self.new ≡ seen self.old) }
        ensures crash { AddsNone (images self.old) (images self.new) }
        ensures time { Elapses (moment self.old) (moment self.new) (images_since self.old) (images_since self.new)
            (images self.new) }
        ensures told { IsSome (seen self.old) → IsSome (seen self.new) }
        ensures failed { OnErr result (HasRisen (faults self.old) (faults self.new)) }
        ensures no_fault { OnOk result (faults self.new ≡ faults self.old) }
        ensures never_falls { faults self.old ≤ faults self.new };

    /// Writes over what is there, and past the end. Until a sync, a crash may leave any bytes in the range.
    fn write_at(&mut self, at: u64, bytes: &[u8]) -> Result<(), Failed>
        ensures written { OnOk result (seen self.new ≡ option_map (written_at at bytes.now) (seen self.old)) }
        ensures crash { ImagesFollow (Torn at (length bytes.now)) (images self.old) (images self.new) }
        ensures time { Elapses (moment self.old) (moment self.new) (images_since self.old) (images_since self.new)
            (images self.new) }
        ensures told { IsSome (seen self.old) → IsSome (seen self.new) }
        ensures failed { OnErr result (HasRisen (faults self.old) (faults self.new)) }
        ensures no_fault { OnOk result (faults self.new ≡ faults self.old) }
        ensures never_falls { faults self.old ≤ faults self.new };

    /// After it, a crash leaves what a read gives.
    fn sync(&mut self) -> Result<(), Failed>
        ensures synced { OnOk result (IsSynced (seen self.new) (images self.new)) }
        ensures same { OnOk result (seen self.new ≡ seen self.old) }
        ensures crash { AddsNone (images self.old) (images self.new) }
        ensures time { Elapses (moment self.old) (moment self.new) (images_since self.old) (images_since self.new)
            (images self.new) }
        ensures told { IsSome (seen self.old) → IsSome (seen self.new) }
        ensures failed { OnErr result (HasRisen (faults self.old) (faults self.new)) }
        ensures no_fault { OnOk result (faults self.new ≡ faults self.old) }
        ensures never_falls { faults self.old ≤ faults self.new };

    // Since this moment there are the images of now, and no others.
    ghost since_now: { (disk : Self) (c : List ℕ) → images_since disk (moment disk) c → images disk c };

    // The images of now are among those since any moment that has come.
    ghost now_since: { (disk : Self) (t : ℕ) (c : List ℕ) → t ≤ moment disk → images disk c → images_since disk t c };

    // The disk as it reads is one of its images.
    ghost reads_as_image: { (disk : Self) → IfSome (seen disk) (images disk) };
}
