ghost use Rattle.std.specs.Prelude.{◌≡◌, ◌<◌, [], ◌∷◌, length, MatchOption, OnSome, IfNone};
ghost use Rattle.json_document.specs.Standing.{data_of, members_behind};
ghost use Rattle.json_document.specs.Fitting.{AreMembers};

use crate::place::JsonPlace;
use std::marker::Model;

/// The members of an object that are still to come. Contracts see the tokens from the next one on; `members_behind` is what they stand for.
#[derive(Drop)]
pub struct Members<'t, 'a> {
    members: json::Members<'t, 'a>,
}

impl<'t, 'a> Model for Members<'t, 'a> {
    ghost use Rattle.std.specs.Prelude.{List};
    ghost use Rattle.json.specs.Token.{Token, tokens_code};

    ghost Value = { List Token };

    ghost coded = { tokens_code };

    ghost use Rattle.json_document.specs.Fitting.{AreMembers};

    ghost view = { λ m. m.members };

    ghost invariant = { λ m. AreMembers m.members };
}

impl<'t, 'a> Members<'t, 'a> {
    pub(crate) fn of(members: json::Members<'t, 'a>) -> Members<'t, 'a>
        requires { AreMembers members }
        ensures { result ≡ members.entry }
    {
        Members { members }
    }

    /// The name and the value of the next member.
    pub fn next(&mut self) -> Option<(&'a str, JsonPlace<'t, 'a>)>
        ensures value { MatchOption result (members_behind self.old ≡ [])
            (λ member. members_behind self.old ≡ (member.0.now, data_of member.1) ∷ members_behind self.new) }
        ensures shorter { OnSome result (length self.new < length self.old) }
        ensures stays { IfNone result (self.new ≡ self.old) }
    {
        match self.members.next() {
            Some((name, element)) => Some((name, JsonPlace::at(element))),
            None => None,
        }
    }
}
