//! What is put to a desk.
ghost use Rattle.std.specs.Prelude.{◌≡◌, IfOk};

use crate::decided::Choice;
use page_tree::NoMemory;
use upload_reader::Client;

/// What the administrator chose for a conflict, that of the client's visit of this number.
#[derive(Debug, Drop)]
pub struct Decision {
    pub client: Client,
    pub visit: u64,
    pub choice: Choice,
}

impl Decision {
    /// An equal decision.
    pub fn copy(&self) -> Result<Decision, NoMemory>
        ensures { IfOk result (λ decision. decision ≡ self.now) }
    {
        Ok(Decision {
            client: self.client.copy()?,
            visit: self.visit,
            choice: self.choice,
        })
    }
}
