ghost use Rattle.std.specs.Prelude.{◌≡◌, ◌≢◌, IfOk, IfErr, option_map};
ghost use Rattle.upload_reader.specs.Member.{text_in};
ghost use Rattle.json_document.specs.Standing.{data_of};
ghost use Rattle.upload_reader.specs.Hello.{greeting_said, hello_said};
ghost use Rattle.upload_reader.specs.declared.hello_fault.HelloFault.TheVariants.{NoMemory};

use crate::client::Client;
use crate::documents::Documents;
use crate::hello_fault::HelloFault;
use crate::unread::Unread;
use json_document::JsonPlace;
use std::alloc::Global;

/// The client of the line of that number, the first that isn't blank. U3 where it is no JSON text, and U4 for want of memory.
pub(crate) fn read_hello(alloc: Global, number: u64, line: &[u8]) -> Result<Client, HelloFault>
    ensures ok { IfOk result (λ client. hello_said number line.now ≡ Ok client) }
    ensures refused { IfErr result (λ fault. fault ≢ NoMemory → hello_said number line.now ≡ Err fault) }
{
    match Documents::new().read(alloc, line) {
        Ok(document) => read_greeting(alloc, &document.root()),
        Err(Unread::Fault(fault)) => Err(HelloFault::Line {
            line: number,
            fault,
        }),
        Err(Unread::NoMemory) => Err(HelloFault::NoMemory),
    }
}

// U2 where it is no hello, and U1 where it names no client.
#[tactic(auto, unfolding(crate::specs::Hello::greeting_said))]
fn read_greeting(alloc: Global, value: &JsonPlace<'_, '_>) -> Result<Client, HelloFault>
    ensures ok { IfOk result (λ client. greeting_said (data_of value.now) ≡ Ok client) }
    ensures refused { IfErr result (λ fault. fault ≢ NoMemory → greeting_said (data_of value.now) ≡ Err fault) }
{
    let Some(kind) = text_in(value, "t") else {
        return Err(HelloFault::NoHello);
    };
    if kind != "hello" {
        return Err(HelloFault::NoHello);
    }
    let Some(text) = text_in(value, "client") else {
        return Err(HelloFault::BadClient);
    };
    Client::read(alloc, text)
}

// The member's text, if it has one.
fn text_in<'a>(message: &JsonPlace<'_, 'a>, name: &str) -> Option<&'a str>
    ensures { option_map (λ text. text.now) result ≡ text_in name.now (data_of message.now) }
{
    message.get(name)?.as_str()
}
