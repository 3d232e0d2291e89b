ghost use Rattle.std.specs.Prelude.{◌≡◌, ◌≢◌, IsTrue, IfOk, IfErr, bytes_eq};
ghost use Rattle.std.specs.List.{list_all};
ghost use Rattle.std.specs.Hash as fed;
ghost use Rattle.std.specs.Cmp.{on_equiv, on_per, partial_equiv_from_equiv};
ghost use Rattle.std.specs.Cmp.Lexicographic.{nat_list_eq_equiv};
ghost use Rattle.std.specs.Cmp.Rules.{hashing};
ghost use Rattle.std.proofs.Common.{rules};
ghost use Rattle.upload_reader.specs.Client.{is_client, is_client_part};
ghost use Rattle.upload_reader.specs.declared.hello_fault.HelloFault.TheVariants.{BadClient, NoMemory};

use crate::hello_fault::HelloFault;
use crate::limits::MAX_CLIENT_BYTES;
use page_tree::{NoMemory, Text};
use std::alloc::Global;
use std::hash::{Hash, Hasher};
use std::marker::Model;

/// The name by which a browser uploads: 1 to 64 of `[A-Za-z0-9_-]`. Clients are compared and hashed by their text.
#[derive(Debug, Drop)]
pub struct Client {
    text: Text,
}

impl Model for Client {
    ghost use Rattle.std.specs.Prelude.{ℕ, List, IsTrue};
    ghost use Rattle.upload_reader.specs.Client.{is_client};

    ghost Value = { List ℕ };

    ghost view = { λ c. c.text };

    ghost invariant = { λ c. IsTrue (is_client c.text) };
}

impl Client {
    /// The client of that name; U1 where a client can't have it.
    pub fn read(alloc: Global, text: &str) -> Result<Client, HelloFault>
        ensures ok { IfOk result (λ client. (client ≡ text.now) × IsTrue (is_client text.now)) }
        ensures refused { IfErr result (λ fault. fault ≢ NoMemory → (fault ≡ BadClient) × ¬ IsTrue (is_client text.now)) }
    {
        if !is_client(text) {
            return Err(HelloFault::BadClient);
        }
        Ok(Client {
            text: Text::from_str(alloc, text)?,
        })
    }

    pub fn text(&self) -> &str
        ensures { result.now ≡ self.now }
    {
        self.text.as_str()
    }

    /// An equal client.
    pub fn copy(&self) -> Result<Client, NoMemory>
        ensures { IfOk result (λ client. client ≡ self.now) }
    {
        Ok(Client {
            text: self.text.copy()?,
        })
    }
}

impl PartialEq for Client {
    ghost eq = { bytes_eq };

    ghost laws = { on_per (λ client. client) (partial_equiv_from_equiv nat_list_eq_equiv) };

    fn eq(&self, other: &Client) -> bool {
        self.text() == other.text()
    }
}

impl Eq for Client {
    ghost laws = { on_equiv (λ client. client) nat_list_eq_equiv };
}

impl Hash for Client {
    ghost hash_input = { fed.str };

    ghost respects_eq = { Prim.search (hashing, rules) };

    fn hash<H: Hasher>(&self, state: &mut H) {
        self.text().hash(state);
    }
}

#[tactic(auto, unfolding(crate::specs::Client::is_client))]
fn is_client(text: &str) -> bool
    ensures { result ≡ is_client text.now }
{
    1 <= text.len() && text.len() <= MAX_CLIENT_BYTES && are_client_parts(text.as_bytes())
}

fn are_client_parts(bytes: &[u8]) -> bool
    ensures { result ≡ list_all is_client_part bytes.now }
{
    bytes.iter().all(|c| is_client_part(*c))
}

fn is_client_part(c: u8) -> bool
    ensures { result ≡ is_client_part c }
{
    c.is_ascii_alphabetic() || c.is_ascii_digit() || c == b'_' || c == b'-'
}
