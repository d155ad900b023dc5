//! A worked test by its parts, and cells that say something or nothing.
ghost use Rattle.std.specs.Prelude.{IfOk};
ghost use Rattle.x86_subset.specs.Shape.{IsLocated};

use perp_base::{Name, NoMemory};
use std::alloc::Global;
use std::test::Fail;
use x86_subset::{
    Atom, Body, Instr, InstrError, Quantifier, Raw, Reg, Span, Test, parse_instr, tokens,
};

const STORE: Instr = Instr::Store { loc: 0, written: 1 };

const SWAP: Instr = Instr::Exchange {
    loc: 1,
    written: 7,
    reg: Reg::Eax,
};

const LOAD: Instr = Instr::Load {
    reg: Reg::Ebx,
    loc: 1,
};

fn body(alloc: Global) -> Result<Body, NoMemory>
    ensures { IfOk result (λ body. IsLocated 2 body.actions) }
{
    let mut body = Body::new(alloc);
    body.constant(Reg::Ecx, 5);
    body.add(STORE)?;
    body.add(SWAP)?;
    body.add(Instr::Fence)?;
    body.add(LOAD)?;
    Ok(body)
}

fn atom(value: u32) -> Atom {
    Atom {
        thread: 0,
        reg: Reg::Eax,
        value,
    }
}

/// `MOV [x],$1`, `XCHG [y],EAX`, `MFENCE`, `MOV EBX,[y]` with `exists (0:EAX=0 /\ 0:EAX=1 \/ 0:EAX=2)`.
fn test(alloc: Global) -> Result<Test, Fail> {
    let locations = vec![in alloc; Name::of(alloc, b"x")?, Name::of(alloc, b"y")?]?;
    let atoms = vec![in alloc; atom(0), atom(1), atom(2)]?;
    let bodies = vec![in alloc; body(alloc)?]?;
    let ends = vec![in alloc; 2, 3]?;
    let name = Name::of(alloc, b"SWAP")?;
    let test = Test::new(name, locations, bodies, Quantifier::Exists, atoms, ends)
        .ok()
        .ok_or("it is within the limits")?;
    Ok(test)
}

#[test]
fn a_body_holds_what_it_reads(rt: HostRuntime) -> Result<(), Fail> {
    let body = body(rt.alloc())?;
    assert_eq!(rt; body.held(Reg::Ecx), Some(5));
    assert_eq!(rt; body.held(Reg::Ebx), None);
    Ok(())
}

#[test]
fn a_test_has_its_parts(rt: HostRuntime) -> Result<(), Fail> {
    let test = test(rt.alloc())?;
    assert_eq!(rt; test.name().bytes(), b"SWAP".as_slice());
    assert_eq!(rt; test.locations().len(), 2);
    assert_eq!(rt; test.quantifier(), Quantifier::Exists);
    assert_eq!(rt; test.atoms().len(), 3);
    assert!(rt; test.conjunctions() == 2);
    assert_eq!(rt; test.conjunction(1), Span { from: 2, to: 3 });
    Ok(())
}

#[test]
fn a_thread_has_its_actions(rt: HostRuntime) -> Result<(), Fail> {
    let test = test(rt.alloc())?;
    assert!(rt; test.threads() == 1);
    assert!(rt; test.body(0).len() == 4);
    assert_eq!(rt; test.body(0), [STORE, SWAP, Instr::Fence, LOAD].as_slice());
    assert_eq!(rt; test.columns(0), 2);
    assert_eq!(rt; test.column(0, 3), Some(1));
    assert_eq!(rt; test.last_writer(0, Reg::Ebx), Some(3));
    Ok(())
}

#[test]
fn cells_say_what_their_forms_mean(rt: HostRuntime) -> Result<(), Fail> {
    let x = Span { from: 5, to: 6 };
    let rows: [(&[u8], Raw); 7] = [
        (b" (* no token *) ", Raw::Blank),
        (b"Mfence", Raw::Fence),
        (b"MOV [x],$1", Raw::StoreNumber { loc: x, value: 1 }),
        (
            b"mov [x],4294967295",
            Raw::StoreNumber {
                loc: x,
                value: 4294967295,
            },
        ),
        (
            b"MOV [x],esi",
            Raw::StoreReg {
                loc: x,
                reg: Reg::Esi,
            },
        ),
        (
            b"MOV EDX,$9",
            Raw::Constant {
                reg: Reg::Edx,
                value: 9,
            },
        ),
        (
            b"XCHG [xy],Edi",
            Raw::Exchange {
                loc: Span { from: 6, to: 8 },
                reg: Reg::Edi,
            },
        ),
    ];
    for (text, want) in rows {
        let cell = tokens(rt.alloc(), text, 0)?;
        assert_eq!(rt; parse_instr(text, &cell), Ok(want), "at {}", text.len());
    }
    Ok(())
}

#[test]
fn cells_of_no_form_are_refused_for_their_cause(rt: HostRuntime) -> Result<(), Fail> {
    let rows: [(&[u8], InstrError); 5] = [
        (b"MOV EAX,$4294967296", InstrError::Number),
        (b"MFENCE [x]", InstrError::Operand),
        (b"MOV [EAX],$1", InstrError::Operand),
        (b"INC [x]", InstrError::Unknown),
        (b"(* never closed", InstrError::Unknown),
    ];
    for (text, want) in rows {
        let cell = tokens(rt.alloc(), text, 0)?;
        assert_eq!(rt; parse_instr(text, &cell), Err(want), "at {}", text.len());
    }
    Ok(())
}
