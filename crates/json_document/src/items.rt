ghost use Rattle.std.specs.Prelude.{◌≡◌, ◌<◌, length, MatchOption, OnSome, IfNone};
ghost use Rattle.serde_json.specs.Data.{no_items, item};
ghost use Rattle.json_document.specs.Standing.{data_of, items_behind};
ghost use Rattle.json_document.specs.Fitting.{AreItems};

use crate::place::JsonPlace;
use std::marker::Model;

/// The items of an array that are still to come. Contracts see the tokens from the next one on; `items_behind` is what they stand for.
#[derive(Drop)]
pub struct Items<'t, 'a> {
    items: json::Items<'t, 'a>,
}

impl<'t, 'a> Model for Items<'t, 'a> {
    ghost use Rattle.std.specs.Prelude.{List};
    ghost use Rattle.json.specs.Token.{Token, tokens_code};

    ghost Value = { List Token };

    ghost coded = { tokens_code };

    ghost use Rattle.json_document.specs.Fitting.{AreItems};

    ghost view = { λ i. i.items };

    ghost invariant = { λ i. AreItems i.items };
}

impl<'t, 'a> Items<'t, 'a> {
    pub(crate) fn of(items: json::Items<'t, 'a>) -> Items<'t, 'a>
        requires { AreItems items }
        ensures { result ≡ items.entry }
    {
        Items { items }
    }

    /// The next item.
    pub fn next(&mut self) -> Option<JsonPlace<'t, 'a>>
        ensures value { MatchOption result (items_behind self.old ≡ no_items)
            (λ place. items_behind self.old ≡ item (data_of place) (items_behind self.new)) }
        ensures shorter { OnSome result (length self.new < length self.old) }
        ensures stays { IfNone result (self.new ≡ self.old) }
    {
        match self.items.next() {
            Some(element) => Some(JsonPlace::at(element)),
            None => None,
        }
    }
}
