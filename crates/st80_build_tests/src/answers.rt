// Methods in words.
use crate::trees::Trees;
use anyhow::{Context, Result, bail};
use long_names::{Body, Value};
use st80_compile::{Stop, compile};
use st80_methods::method_body;
use st80_tree::Method;

/// The pool has so many numbers.
const POOL: i16 = 400;

/// What stands for the class's association.
const CLASS: Value = Value::Int(-1);

fn method_of(rt: HostRuntime, asked: &str) -> Result<Method> {
    let alloc = rt.alloc();
    let mut words = asked.split(' ');
    let arguments = words
        .next()
        .context("a method")?
        .parse::<u8>()
        .context("arguments")?;
    let temporaries = words
        .next()
        .context("temporaries")?
        .parse::<u8>()
        .context("temporaries")?;
    let primitive = words
        .next()
        .context("a primitive")?
        .parse::<u8>()
        .context("a primitive")?;
    let mut trees = Trees::new(alloc);
    for word in words {
        trees.read(alloc, word)?;
    }
    Ok(Method {
        arguments,
        temporaries,
        primitive,
        body: trees.whole(alloc)?,
    })
}

fn pool_of(rt: HostRuntime) -> Result<Vec<Value>> {
    let mut pool = Vec::new(rt.alloc());
    for number in 0..POOL {
        pool.push(Value::Int(number))?;
    }
    Ok(pool)
}

fn put_value(out: &mut String, value: &Value) -> Result<()> {
    match value {
        Value::Int(number) => write!(out, "{number}")?,
        Value::Ref(_) => bail!("a name in the pool"),
    }
    Ok(())
}

/// Puts a method: its header, its literals, and its bytes.
fn put_body(out: &mut String, body: &Body) -> Result<()> {
    let Body::Method {
        header,
        literals,
        code,
    } = body
    else {
        bail!("no method");
    };
    write!(out, "{header} [")?;
    for i in 0..literals.len() {
        if i > 0 {
            write!(out, " ")?;
        }
        put_value(out, literals.item(i))?;
    }
    write!(out, "]")?;
    for byte in code.bytes() {
        write!(out, " {byte:02x}")?;
    }
    Ok(())
}

/// The method of a tree in words, or why there is none.
pub(crate) fn answer_of(rt: HostRuntime, asked: &str) -> Result<String> {
    let method = method_of(rt, asked)?;
    let mut out = String::new(rt.alloc());
    match compile(rt.alloc(), &method) {
        Ok(made) => {
            let body = method_body(rt.alloc(), &made, &pool_of(rt)?, CLASS)
                .ok()
                .context("no object")?;
            put_body(&mut out, &body)?;
        }
        Err(Stop::Refused(why)) => write!(out, "{why:?}")?,
        Err(Stop::NoMemory) => bail!("out of memory"),
    }
    Ok(out)
}
