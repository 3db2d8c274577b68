// JSON values, and the look-up of a member.

ghost use Rattle.std.specs.Prelude.{◌≡◌, option_map, reverse};
ghost use Rattle.std.specs.{List.find, Str.bytes_eq};

/// A JSON value: RFC 8259, section 3. A number is kept as it is spelled, and an object keeps its members in the
/// order of the text, with each that repeats a name. Names, numbers and strings without an escape are parts of the text
/// that was read (`'a`); all else is in the arena that it was read into (`'b`).
#[derive(Clone, Copy)]
#[cycle(json)]
pub enum Json<'b, 'a> {
    /// `null`
    Null,
    /// `true` or `false`
    Bool(bool),
    /// A number, as the text spells it.
    Number(&'a str),
    /// A string without an escape.
    Str(&'a str),
    /// A string that has escapes, with these replaced by their characters.
    Made(&'b str),
    /// An array.
    Items(&'b [Json<'b, 'a>]),
    /// An object.
    Members(&'b [Member<'b, 'a>]),
}

/// A member of an object: RFC 8259, section 4.
#[derive(Clone, Copy)]
#[cycle(json)]
pub struct Member<'b, 'a> {
    /// The name, with its escapes replaced by their characters.
    pub key: &'b str,
    /// The value.
    pub value: Json<'b, 'a>,
}

// The last member with the name.
fn last_with_key<'m, 'b, 'a>(members: &'m [Member<'b, 'a>], key: &str) -> Option<&'m Member<'b, 'a>>
    ensures { option_map (λ member. member.now) result ≡ find (λ member. bytes_eq member.key.now key.now) (reverse members.now) }
{
    members.iter().rev().find(|member| member.key == key)
}

impl<'b, 'a> Json<'b, 'a> {
    ghost use Rattle.std.specs.Prelude.{◌≡◌, option_map};
    ghost use Rattle.json_spell.specs.{Tree.member_of, View.json_view};

    /// The value of the last member with the name; none where there is no such member or the value is no object. Of
    /// members that repeat a name many readers take the last one: RFC 8259, section 4.
    pub fn get(&self, key: &str) -> Option<&Json<'b, 'a>>
        ensures { option_map (λ value. json_view value.now) result ≡ member_of key.now (json_view self.now) }
    {
        let Json::Members(members) = self else {
            return None;
        };
        let member = last_with_key(members, key)?;
        Some(&member.value)
    }
}
