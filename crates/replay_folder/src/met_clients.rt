//! The clients of which an upload was met: another one of theirs has to wait for that. They only choose which files are taken beside one another.
use byte_streams::Source;
use indexmap::IndexMap;
use page_tree::NoMemory;
use std::alloc::Global;
use upload_lanes::LaneResult;
use upload_reader::Client;

/// Those that were met, by what was asked of them.
#[derive(Drop)]
pub(crate) struct MetClients {
    clients: IndexMap<Client, ()>,
    // so many of those that have logs are among them, the first ones
    logs: usize,
}

impl MetClients {
    /// None. It takes no memory.
    pub(crate) fn new(alloc: Global) -> MetClients {
        MetClients {
            clients: IndexMap::new(alloc),
            logs: 0,
        }
    }

    /// All clients that have logs are met.
    pub(crate) fn meet_all<F: Source>(
        &mut self,
        logs: &IndexMap<Client, LaneResult<F>>,
    ) -> Result<(), NoMemory> {
        for k in self.logs..logs.len() {
            if let Some((client, _lane)) = logs.get_index(k) {
                self.meet(client)?;
            }
        }
        self.logs = logs.len();
        Ok(())
    }

    /// Whether that client wasn't met before.
    pub(crate) fn meet(&mut self, client: &Client) -> Result<bool, NoMemory> {
        Ok(self.clients.insert(client.copy()?, ())?.is_none())
    }
}
