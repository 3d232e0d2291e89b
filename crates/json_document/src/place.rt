ghost use Rattle.std.specs.Prelude.{◌≡◌, option_map, option_and_then};
ghost use Rattle.serde_json.specs.Data.{no_members};
ghost use Rattle.serde_json.specs.Find.{get, as_str, as_number, as_u64, as_array, as_object};
ghost use Rattle.json_document.specs.Standing.{data_of, items_behind, members_behind, put_all};
ghost use Rattle.json_document.specs.Fitting.{IsPlace};

use crate::fitting::unsigned;
use crate::items::Items;
use crate::members::Members;
use json::Element;
use std::marker::Model;

/// Where a value begins in a document. Contracts see the tokens from there on; `data_of` is what stands there.
#[derive(Drop)]
pub struct JsonPlace<'t, 'a> {
    element: Element<'t, 'a>,
}

impl<'t, 'a> Model for JsonPlace<'t, 'a> {
    ghost use Rattle.std.specs.Prelude.{List};
    ghost use Rattle.json.specs.Token.{Token, tokens_code};

    ghost Value = { List Token };

    ghost coded = { tokens_code };

    ghost use Rattle.json_document.specs.Fitting.{IsPlace};

    ghost view = { λ p. p.element };

    ghost invariant = { λ p. IsPlace p.element };
}

impl<'t, 'a> JsonPlace<'t, 'a> {
    pub(crate) fn at(element: Element<'t, 'a>) -> JsonPlace<'t, 'a>
        requires { IsPlace element }
        ensures { result ≡ element.entry }
    {
        JsonPlace { element }
    }

    /// The text, where a text stands there.
    pub fn as_str(&self) -> Option<&'a str>
        ensures { option_map (λ text. text.now) result ≡ as_str (data_of self.now) }
    {
        self.element.as_str()
    }

    /// The number, where one of 64 bits without a sign, a point and an exponent stands there.
    pub fn as_u64(&self) -> Option<u64>
        ensures { result ≡ option_and_then as_u64 (as_number (data_of self.now)) }
    {
        unsigned(self.element.as_number()?)
    }

    /// The value of that member; the last one where several have the name. It walks all members: to look at many, use `members`.
    pub fn get(&self, name: &str) -> Option<JsonPlace<'t, 'a>>
        ensures { option_map data_of result ≡ get name.now (data_of self.now) }
    {
        match self.element.get(name) {
            Some(element) => Some(JsonPlace::at(element)),
            None => None,
        }
    }

    /// The items of an array, from the first on.
    pub fn items(&self) -> Option<Items<'t, 'a>>
        ensures { option_map items_behind result ≡ as_array (data_of self.now) }
    {
        match self.element.items() {
            Some(items) => Some(Items::of(items)),
            None => None,
        }
    }

    /// The members of an object in the order of the text, from the first on. A name comes as often as the text has it, and its last value counts.
    pub fn members(&self) -> Option<Members<'t, 'a>>
        ensures { option_map (λ members. put_all (members_behind members) no_members) result ≡ as_object (data_of self.now) }
    {
        match self.element.members() {
            Some(members) => Some(Members::of(members)),
            None => None,
        }
    }
}
