//! A folder with a file for each client.
ghost use Rattle.std.specs.Prelude.{◌≡◌, List, ℕ, [], Bool, true, false, Option, Some, None, option_map, bytes_eq, Ok, IfOk, IfSome, OnErr};

use upload_files::{FileFault, GrowingFile};
use upload_reader::Client;

/// A folder of clients' files that nobody else writes to. What these contracts say is all that is believed of it.
pub trait Folder<F: GrowingFile> {
    // What a client's file that isn't open gives to read, and how many of these bytes stay as they are, whatever
    // happens; none where there is no file. Of one that is open, what it gave before.
    ghost lies: { Self → List ℕ → Option (List ℕ × ℕ) };
    // What lies there is known.
    ghost known: { Self → Bool };

    /// Opens a client's file, if there is one. From then on its name stays, whatever happens, and so do the bytes that
    /// did.
    fn find(&mut self, client: &Client) -> Result<Option<F>, FileFault>
        ensures found { known self.old ≡ true
            → IfOk result (λ file. option_map (λ file. (F.seen file, F.durable file)) file ≡ lies self.old client.now) }
        ensures sound { known self.old ≡ true → IfOk result (λ file. IfSome file (λ file. F.lost file ≡ false)) }
        ensures lies { (name : List ℕ) → lies self.new name ≡ lies self.old name }
        ensures known { known self.new ≡ known self.old };

    /// Makes the file of a client that has none; `Full` where there is no room for one more. Its name stays, whatever
    /// happens.
    fn create(&mut self, client: &Client) -> Result<F, FileFault>
        ensures created { known self.old ≡ true → IfOk result (λ file. F.seen file ≡ []) }
        ensures sound { known self.old ≡ true → IfOk result (λ file. F.lost file ≡ false) }
        ensures lies { IfSome (lies self.new client.now) (λ lying. lying.0 ≡ []) }
        ensures others { (name : List ℕ) → bytes_eq client.now name ≡ false
            → lies self.new name ≡ lies self.old name }
        ensures known { known self.new ≡ known self.old };

    /// Closes a client's file. The bytes of it that stayed still do.
    fn close(&mut self, client: &Client, file: F)
        ensures closed { known self.old ≡ true → F.lost file ≡ false
            → lies self.new client.now ≡ Some (F.seen file, F.durable file) }
        ensures others { (name : List ℕ) → bytes_eq client.now name ≡ false
            → lies self.new name ≡ lies self.old name }
        ensures known { known self.new ≡ known self.old };

    /// A client's file isn't touched any more, as whoever runs the server is to learn.
    fn shut(&mut self, client: &Client)
        ensures lies { (name : List ℕ) → lies self.new name ≡ lies self.old name }
        ensures known { known self.new ≡ known self.old };
}
