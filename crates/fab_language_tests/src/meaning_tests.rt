//! A method that writes twice, and fails behind the second time inside of `atomic`.

use fab_base::{NoMemory, Object, Oid, Seq, Stop, Text, Tid, Value};
use fab_language::Ending;
use fab_map::ObjectMap;
use fab_meaning::{Meant, plain_meaning};
use fab_tree::resolved::{
    Expression, Form, Local, Method, Request, Resolved, Sort, Statement, Use,
};
use fab_tree::{Name, Number};
use std::alloc::Global;
use std::test::Fail;

const ACCOUNT: Oid = Oid {
    store: 1,
    class: 0,
    worker: 65535,
    boot: 0,
    number: 0,
    site: 65535,
    index: 0,
};

const FIRST: Use = Use { number: 0, at: 0 };

fn written(value: i32, site: u16) -> Statement {
    Statement::Write {
        object: FIRST,
        field: 0,
        value: Expression {
            form: Form::Number(Number::Int(value)),
            at: 0,
        },
        site,
    }
}

fn name(alloc: Global) -> Result<Name, NoMemory> {
    Ok(Name {
        text: Text::make(alloc, "m")?,
        at: 0,
    })
}

fn method(alloc: Global) -> Result<Method, NoMemory> {
    let attempted = vec![in alloc; written(5, 8), Statement::Fail { at: 0 }]?;
    let body = vec![in alloc;
        written(7, 3),
        Statement::Atomic {
            label: FIRST,
            block: Seq::from_vec(attempted),
            otherwise: Seq::new(alloc),
            at: 0,
        },
    ]?;
    let account = Local {
        sort: Sort::Class(FIRST),
        name: name(alloc)?,
        label: FIRST,
    };
    Ok(Method {
        name: name(alloc)?,
        parameters: 1,
        locals: Seq::from_vec(vec![in alloc; account]?),
        returns: None,
        begin: FIRST,
        fails: false,
        authority: Seq::new(alloc),
        body: Seq::from_vec(body),
        result: None,
    })
}

fn program(alloc: Global) -> Result<Resolved, NoMemory> {
    Ok(Resolved {
        nodes: Seq::new(alloc),
        pairs: Seq::new(alloc),
        labels: Seq::new(alloc),
        classes: Seq::new(alloc),
        methods: Seq::from_vec(vec![in alloc; method(alloc)?]?),
        roots: Seq::new(alloc),
        sessions: Seq::new(alloc),
        posts: Seq::new(alloc),
        crashes: Seq::new(alloc),
        cache: 0,
        schedule: Seq::new(alloc),
    })
}

fn found(alloc: Global, fuel: u32) -> Result<Meant, NoMemory> {
    let mut known = ObjectMap::new(alloc);
    let fields = Seq::from_slice(alloc, &[Value::Int(100)])?;
    known.put(ACCOUNT, Object { class: 0, fields })?;
    let request = Request {
        worker: 0,
        number: 1,
        method: 0,
        args: Seq::from_slice(alloc, &[Value::Ref(ACCOUNT)])?,
    };
    let tid = Tid {
        worker: 0,
        boot: 1,
        number: 1,
    };
    plain_meaning(alloc, &program(alloc)?, &known, &request, tid, fuel)
}

fn holds(meant: &Meant, value: i32) -> bool {
    match meant.map.get(ACCOUNT) {
        Some(object) => object.fields.as_slice().get(0).copied() == Some(Value::Int(value)),
        None => false,
    }
}

#[test]
fn a_failure_puts_the_map_back(rt: HostRuntime) -> Result<(), Fail> {
    let meant = found(rt.alloc(), 4)?;
    assert!(rt; meant.ending == Ending::Ended(None));
    assert!(rt; holds(&meant, 7));
    assert_eq!(rt; meant.written.len(), 1);
    assert_eq!(rt; meant.touches.len(), 2);
    Ok(())
}

#[test]
fn a_limit_puts_nothing_back(rt: HostRuntime) -> Result<(), Fail> {
    let meant = found(rt.alloc(), 3)?;
    assert!(rt; meant.ending == Ending::Stopped(Stop::Fuel));
    assert!(rt; holds(&meant, 5));
    Ok(())
}
