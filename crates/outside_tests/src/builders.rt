// The first rule of images that a builder breaks. That the tables of the images are their files is shown by `loom_images`.
use image_builder::{BuildFault, Builder};
use long_names::{Body, LAST_NAME, Name, Octets, Value, Values};
use sample_images::{add_pointers, name, object};
use std::alloc::{AllocError, Global};
use std::test::Fail;

/// The word of the name of the object that is added.
const ADDED: u32 = 68;

/// Which of the known objects are left out.
#[derive(Clone, Copy)]
enum Without {
    None,
    One(Name),
    All,
}

/// An object that is added to the known ones, which are empty arrays.
#[derive(Clone, Copy)]
enum Added {
    Nothing,
    /// An array that holds itself.
    Itself,
    /// Of this class, with one field.
    Pointers(Name, Value),
    /// Without literals, with this header.
    Method(i16),
}

/// Which known objects are left out, what is added, the next name, and the rule that is broken with the name where it is.
struct Row {
    without: Without,
    added: Added,
    next: u32,
    broken: Option<(u8, u32)>,
}

const NUMBER: Added = Added::Pointers(Name::ARRAY, Value::Int(-16384));

const ROWS: [Row; 15] = [
    Row {
        without: Without::All,
        added: Added::Nothing,
        next: 60,
        broken: Some((3, 0)),
    },
    Row {
        without: Without::None,
        added: Added::Itself,
        next: 70,
        broken: None,
    },
    Row {
        without: Without::None,
        added: Added::Nothing,
        next: 58,
        broken: Some((3, 0)),
    },
    Row {
        without: Without::None,
        added: Added::Nothing,
        next: 61,
        broken: Some((3, 0)),
    },
    Row {
        without: Without::None,
        added: NUMBER,
        next: 68,
        broken: Some((4, 68)),
    },
    Row {
        without: Without::None,
        added: Added::Pointers(Name::ARRAY, Value::Int(16384)),
        next: 70,
        broken: Some((6, 68)),
    },
    Row {
        without: Without::None,
        added: Added::Pointers(Name::ARRAY, Value::Int(-16385)),
        next: 70,
        broken: Some((6, 68)),
    },
    Row {
        without: Without::None,
        added: Added::Method(16384),
        next: 70,
        broken: Some((7, 68)),
    },
    Row {
        without: Without::None,
        added: Added::Method(1),
        next: 70,
        broken: Some((7, 68)),
    },
    Row {
        without: Without::One(Name::POINT),
        added: Added::Pointers(Name::POINT, Value::Int(0)),
        next: 70,
        broken: Some((10, 68)),
    },
    Row {
        without: Without::One(Name::POINT),
        added: Added::Pointers(Name::ARRAY, Value::Ref(Name::POINT)),
        next: 70,
        broken: Some((10, 68)),
    },
    Row {
        without: Without::None,
        added: NUMBER,
        next: 70,
        broken: Some((11, 68)),
    },
    Row {
        without: Without::One(Name::LARGE_NEGATIVE_INTEGER),
        added: NUMBER,
        next: 70,
        broken: Some((11, 68)),
    },
    Row {
        without: Without::One(Name::LARGE_NEGATIVE_INTEGER),
        added: Added::Itself,
        next: 70,
        broken: Some((12, 58)),
    },
    Row {
        without: Without::One(Name::SMALL_INTEGER),
        added: Added::Itself,
        next: LAST_NAME,
        broken: Some((12, 12)),
    },
];

impl Without {
    fn leaves_out(&self, name: &Name) -> bool {
        match self {
            Without::None => false,
            Without::One(known) => known == name,
            Without::All => true,
        }
    }
}

fn known_objects(alloc: Global, without: &Without) -> Result<Builder, AllocError> {
    let mut builder = Builder::new(alloc)?;
    for known in Name::known() {
        if !without.leaves_out(&known) {
            add_pointers(alloc, &mut builder, known, Name::ARRAY, &[])?;
        }
    }
    Ok(builder)
}

fn add(alloc: Global, builder: &mut Builder, added: Added) -> Result<(), AllocError> {
    match added {
        Added::Nothing => Ok(()),
        Added::Itself => {
            let held = [object(ADDED)];
            add_pointers(alloc, builder, name(ADDED), Name::ARRAY, &held)
        }
        Added::Pointers(class, value) => {
            add_pointers(alloc, builder, name(ADDED), class, &[value])
        }
        Added::Method(header) => {
            let body = Body::Method {
                header,
                literals: Values::new(alloc),
                code: Octets::new(alloc),
            };
            builder.add(name(ADDED), Name::COMPILED_METHOD, body)
        }
    }
}

// None where there is an image.
fn broken_rule(alloc: Global, row: &Row) -> Result<Option<(u8, u32)>, Fail> {
    let mut builder = known_objects(alloc, &row.without)?;
    add(alloc, &mut builder, row.added)?;
    match builder.finish(alloc, row.next) {
        Ok(_) => Ok(None),
        Err(BuildFault::Rule { rule, name }) => Ok(Some((rule, name))),
        Err(fault) => Err(fault.into()),
    }
}

// The first row of which another rule is broken.
fn first_wrong(alloc: Global, rows: &[Row]) -> Result<Option<usize>, Fail> {
    for (i, row) in rows.iter().enumerate() {
        if broken_rule(alloc, row)? != row.broken {
            return Ok(Some(i));
        }
    }
    Ok(None)
}

#[test]
fn the_first_rule_that_breaks(rt: HostRuntime) -> Result<(), Fail> {
    assert_eq!(rt; first_wrong(rt.alloc(), &ROWS)?, None);
    Ok(())
}
