//! Two requests of a method that makes an object or doesn't, by a secret, and then one more. Who doesn't
//! see the secret finds the same of both: one object, of the second `new`, with index 0.

use fab_base::{NoMemory, Oid, Seq, Text, Tid, Value, Width};
use fab_language::Ending;
use fab_map::ObjectMap;
use fab_meaning::{Meant, meaning};
use fab_places::Seen;
use fab_tree::resolved::{
    Class, Expression, Form, Local, Method, Request, Resolved, Return, Returns, Right, Sort,
    Statement, Use,
};
use fab_tree::{Name, Number};
use std::alloc::Global;
use std::test::Fail;

const SECRET: Use = Use { number: 0, at: 0 };

const PUBLIC: Use = Use { number: 1, at: 0 };

const STORE: Use = Use { number: 2, at: 0 };

const SECOND: Oid = Oid {
    store: 2,
    class: 0,
    worker: 1,
    boot: 1,
    number: 1,
    site: 1,
    index: 0,
};

fn expression(form: Form) -> Expression {
    Expression { form, at: 0 }
}

fn assigned(local: u16, right: Right) -> Statement {
    Statement::Assign {
        local,
        right,
        at: 0,
    }
}

fn new(alloc: Global, n: i32, site: u16) -> Result<Right, NoMemory> {
    Ok(Right::New {
        class: SECRET,
        store: STORE,
        arguments: Seq::from_vec(vec![in alloc; expression(Form::Number(Number::Int(n)))]?),
        site,
        at: 0,
    })
}

fn local(alloc: Global, sort: Sort, label: Use) -> Result<Local, NoMemory> {
    Ok(Local {
        sort,
        name: name(alloc)?,
        label,
    })
}

fn name(alloc: Global) -> Result<Name, NoMemory> {
    Ok(Name {
        text: Text::make(alloc, "k")?,
        at: 0,
    })
}

fn body(alloc: Global) -> Result<Vec<Statement>, NoMemory> {
    let inner = vec![in alloc; assigned(1, new(alloc, 1, 0)?)]?;
    Ok(vec![in alloc;
        Statement::If {
            condition: expression(Form::Local(Use { number: 0, at: 0 })),
            block: Seq::from_vec(inner),
            otherwise: Seq::new(alloc),
        },
        assigned(2, new(alloc, 2, 1)?),
    ]?)
}

fn method(alloc: Global) -> Result<Method, NoMemory> {
    let locals = vec![in alloc;
        local(alloc, Sort::Number(Width::Int), SECRET)?,
        local(alloc, Sort::Class(SECRET), SECRET)?,
        local(alloc, Sort::Class(SECRET), PUBLIC)?,
    ]?;
    Ok(Method {
        name: name(alloc)?,
        parameters: 1,
        locals: Seq::from_vec(locals),
        returns: Some(Returns {
            sort: Sort::Class(SECRET),
            label: PUBLIC,
        }),
        begin: PUBLIC,
        fails: false,
        authority: Seq::new(alloc),
        body: Seq::from_vec(body(alloc)?),
        result: Some(Return {
            value: expression(Form::Local(Use { number: 2, at: 0 })),
            at: 0,
        }),
    })
}

fn program(alloc: Global) -> Result<Resolved, NoMemory> {
    let class = Class {
        name: name(alloc)?,
        label: SECRET,
        access: SECRET,
        fields: Seq::new(alloc),
    };
    Ok(Resolved {
        nodes: Seq::new(alloc),
        pairs: Seq::new(alloc),
        labels: Seq::new(alloc),
        classes: Seq::from_vec(vec![in alloc; class]?),
        methods: Seq::from_vec(vec![in alloc; method(alloc)?]?),
        roots: Seq::new(alloc),
        sessions: Seq::new(alloc),
        posts: Seq::new(alloc),
        crashes: Seq::new(alloc),
        cache: 0,
        schedule: Seq::new(alloc),
    })
}

/// What is found of the request with this secret by who sees the second label and is shown no class.
fn found(alloc: Global, secret: i32) -> Result<Meant, NoMemory> {
    let request = Request {
        worker: 1,
        number: 1,
        method: 0,
        args: Seq::from_slice(alloc, &[Value::Int(secret)])?,
    };
    let tid = Tid {
        worker: 1,
        boot: 1,
        number: 1,
    };
    let seen = Seen {
        labels: 2,
        classes: 0,
    };
    let known = ObjectMap::new(alloc);
    meaning(
        alloc,
        &program(alloc)?,
        &seen,
        &known,
        &[],
        &request,
        tid,
        1_000_000,
    )
}

/// Whether the object of the second `new` is all that was made, and its field is blank.
fn is_alone(meant: &Meant) -> bool {
    match meant.map.rows() {
        [row] => {
            row.0 == SECOND
                && row.1.fields.as_slice() == [Value::Null].as_slice()
                && meant.made.as_slice() == [SECOND].as_slice()
                && meant.written.is_empty()
                && meant.touches.is_empty()
                && meant.downs.is_empty()
        }
        _ => false,
    }
}

#[test]
fn one_name_without_the_secret_object(rt: HostRuntime) -> Result<(), Fail> {
    let meant = found(rt.alloc(), 0)?;
    assert!(rt; meant.ending == Ending::Ended(Some(Value::Ref(SECOND))));
    assert!(rt; is_alone(&meant));
    Ok(())
}

#[test]
fn one_name_beside_the_secret_object(rt: HostRuntime) -> Result<(), Fail> {
    let meant = found(rt.alloc(), 1)?;
    assert!(rt; meant.ending == Ending::Ended(Some(Value::Ref(SECOND))));
    assert!(rt; is_alone(&meant));
    Ok(())
}
