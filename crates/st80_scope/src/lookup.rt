// Where a name is declared: the innermost declaration is what it stands for.
ghost use Rattle.std.specs.Prelude.{◌≡◌, ◌≢◌, [], IfNone, IfSome};
ghost use Rattle.st80_scope.specs.Names.{IsAbsent, IsFirst, IsInnermost};

/// The declaration that a name stands for, by its place among those of its kind.
#[derive(Clone, Copy, Debug, PartialEq, Eq)]
pub enum Declared {
    /// An argument or a temporary of the method, or an argument of one of its blocks.
    Temporary(usize),
    /// A field of the class.
    Field(usize),
    /// A variable that methods share.
    Shared(usize),
}

/// Where a name stands first among names. An empty name stands nowhere.
pub fn place_in(names: &[Vec<u8>], name: &[u8]) -> Option<usize>
    ensures some { IfSome result (IsFirst names.now name.now) }
    ensures none { IfNone result (IsAbsent names.now name.now) }
{
    if name.is_empty() {
        return None;
    }
    let mut at = 0;
    'each: for other in names {
        if other.as_slice() == name {
            return Some(at);
        }
        at += 1;
    }
    None
}

/// The innermost declaration of a name: a temporary, then a field of the class, then a variable that methods share.
pub fn declaration_of(
    temporaries: &[Vec<u8>],
    fields: &[Vec<u8>],
    shared: &[Vec<u8>],
    name: &[u8],
) -> Option<Declared>
    ensures some { IfSome result (IsInnermost temporaries.now fields.now shared.now name.now) }
    ensures no_temporary { IfNone result (IsAbsent temporaries.now name.now) }
    ensures no_field { IfNone result (IsAbsent fields.now name.now) }
    ensures not_shared { IfNone result (IsAbsent shared.now name.now) }
{
    if let Some(at) = place_in(temporaries, name) {
        return Some(Declared::Temporary(at));
    }
    if let Some(at) = place_in(fields, name) {
        return Some(Declared::Field(at));
    }
    match place_in(shared, name) {
        Some(at) => Some(Declared::Shared(at)),
        None => None,
    }
}
