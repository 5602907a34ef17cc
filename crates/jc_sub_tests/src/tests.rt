//! What no clause says of `jc_sub`.
use jc_rules::{Items, WantOfMemory};
use jc_sample::{library, typed};
use jc_sub::{Answer, below, capture, contained};
use jc_types::{Arg, CaptureId, ClassId, Env, Table, Ty, same_type};
use std::alloc::Global;
use std::test::Fail;

// The number of the first row whose answer is another one, from 1, and 0 where there is none. In a row the types stand on both
// sides of `<` for Yes, `#` for No and `~` for Deep.
fn first_wrong(alloc: Global, rows: &[u8]) -> Result<u32, WantOfMemory> {
    let table = library(alloc)?;
    let env = Env {
        bounds: Items::new(alloc),
    };
    let mut row: u32 = 1;
    for line in rows.split(|b| *b == b'\n') {
        if !is_right(alloc, &table, &env, line)? {
            return Ok(row);
        }
        row = row.saturating_add(1);
    }
    Ok(0)
}

fn is_right(alloc: Global, table: &Table, env: &Env, line: &[u8]) -> Result<bool, WantOfMemory> {
    let Some(at) = line
        .iter()
        .position(|b| *b == b'<' || *b == b'#' || *b == b'~')
    else {
        return Ok(line.is_empty());
    };
    let (left, right) = line.split_at(at);
    let [sign, right @ ..] = right else {
        return Ok(false);
    };
    let wanted = match *sign {
        b'<' => Answer::Yes,
        b'#' => Answer::No,
        _ => Answer::Deep,
    };
    let s = typed(alloc, left)?;
    let t = typed(alloc, right)?;
    Ok(below(alloc, table, env, &s, &t)? == wanted)
}

// Questions that were worked out from JLS 4.10 and checked once with `javac --release 7`, as assignments between variables of
// these types. A raw type isn't below its class with unbounded arguments, though it converts to it without a warning (5.1.9).
const ROWS: &[u8] = b"\
    IL<N+C\nIL#NL\n5<6\n4<5\n3#4\n1#5\n2<3\n5[#6[\n5[<5[\n5[<O\nI[<N[\nI[<O[\n5[[<O[\nIA<?L\nI+L<N+L\nN+L#I+L\n\
    N-L<I-L\nI-L#N-L\n?L<O+L\nO+L<?L\nILL#I+LL\nILL<I+L+L\n!L<!C\nIA<!E\n!A#?E\nR<!L\nR#?L\nR#SL\nQ<SE\nQ<S+C\n\
    Q#NC\nM<MF\nM<?F\nMF<?F\nI<IK\nI<N+K\nI<?K\nS<SK\nS#IK\nu<N\nv<t\nv<O\nt#v\nw<wK\nw<w+K\nw<?K\nuB<N+B\n\
    uB<u+B\n?B<N+B\n?B#I+B\nI-B<N+B\nu[<N[\nv[<t[\nt[<O[\nt[#N[\nINP<?N+P\nI?P<N+?P\n?I-P#?N-P\nNI-P#NN-P\n\
    IN+LP<N+?C+P\nuL<N+L\nvL<t+C\ntL<v-C\nt-L<v-L\nv-L#t-L\nwL<wK+L\n?F<O\n?A<?C\n?A[<?C[\n!A<!C\nR#IA\n\
    ?FC#N[S[-P\nuCE#uEE\n!L<!E\nN+CC#I+EC\nwLL#Q\nO[#DAL\n?L<?C\nuB#t\nO#SA-E\n?C+C<?E+C\ntAL#tLL\nM-F#QC\n\
    ?LC<?LE\n?L<?E\nNC<?E\nIQ-PL<IQ-PC\nN+C<N+E\nD#?K\nR-SPE#S\n!C<!E\nD+L<D+C\nN+BC<N+BE\nO#D+A\nOE#D\nR#v+KL\n\
    O-C+I[P<O-E+I[P\nS+A+C<S+L+E\nIC+A#M\n!C+A#?K\nS+EA<S+EC\n?EC<?EE\nS-L<S-E\nN#I\nR#u\nI+KL#w\nICL#w\n?C<?E\n\
    t#ME\nQ+L<Q+C\nMA<ME\nv-A+E#u\nS[+L#w\nMAL#MCL\n?uP#I[\nO[L<O[C\nu#?C\nN+B#D\nS#?L\n!L#?AA\n?E#MF\nI#?LC\n\
    D#S\nRA+E#S+L\nw#t\nv#?F?P\n?C[<?E[\nO+C#SA\nD+L#tL\nMF[#u+KA\nIB+L#NB+C\n?F#?SPL\nNB#v-L\nREA#?F\nR+K#?AA\n\
    ?F+C<?F+E\nRC<RE\nN<O\nw+A<w+C\nw+K#t-A+C\nI#!BA\nt#u\nI+AL<I+AC\n?wPA<?wPC\nu-C<u-E\nN-L<N-C\nS#?C\n?F-L#!A\n\
    ?C-E#?E-E\nQ+C#D\nR+K-C<R+K-E\nS#??N-PP\n!BE#!K\nu-B#Q-A\nOL<OC\nIL<IE\nS[+A<O\nN+K#DCL\nSL-C#SE-E\n?L+C#u\n\
    ?LA#!K[\nN#NB\nN+L<N+E\n!F#u\n?A<?E\n?K-K#?F\n!K#N[\nI<O\nD+E-L<D+E-C\nNL#?F\n?C+K#IBL\nN#?C\n?C#N\n\
    w-N+P+L<w-N+P+C\nN-B#D\nS#NB\n?L#S\nuC<uE\nw+C[#SC[\nS?P+A<S?P+E\nt+AK#t+EK\nRL#?K\n?F#R+CA\nv#I[-C\n?C#uK-A\n\
    ?L<O\nu+L#N\nvA+A<vA+C\nIK#OK\n?A<?L\n!F-C#D\n!E#uB\n?L+C<?L+E\nI[+C#S\nDCA<DCC\nI-B#NK\nR+L[<R+E[\n\
    w-C+L#O+?P-C\nv#QC\nt+L[#u+L\n\
";

#[test]
fn questions_of_the_standard(rt: HostRuntime) -> Result<(), Fail> {
    assert_eq!(rt; first_wrong(rt.alloc(), ROWS)?, 0);
    Ok(())
}

#[test]
fn expansive_types_are_deep(rt: HostRuntime) -> Result<(), Fail> {
    assert_eq!(rt;
        first_wrong(rt.alloc(), b"IY~IY-X\nIL#IY\nMF<O\n0<IY\n")?,
        0
    );
    Ok(())
}

// List<? extends .. > n times round a class.
fn nested(alloc: Global, n: u32, letter: &[u8]) -> Result<Ty, WantOfMemory> {
    let mut ty = typed(alloc, letter)?;
    for _ in 0..n {
        let mut args = Items::new(alloc);
        args.push(Arg::Extends(ty))?;
        ty = Ty::Class {
            id: ClassId(7),
            args,
        };
    }
    Ok(ty)
}

fn nested_answer(alloc: Global, n: u32, from: &[u8], to: &[u8]) -> Result<Answer, WantOfMemory> {
    let table = library(alloc)?;
    let env = Env {
        bounds: Items::new(alloc),
    };
    below(
        alloc,
        &table,
        &env,
        &nested(alloc, n, from)?,
        &nested(alloc, n, to)?,
    )
}

#[test]
fn a_proof_of_height_65_is_not_found(rt: HostRuntime) -> Result<(), Fail> {
    let alloc = rt.alloc();
    assert!(rt; nested_answer(alloc, 31, b"I", b"N")? == Answer::Yes);
    assert!(rt; nested_answer(alloc, 32, b"I", b"N")? == Answer::Deep);
    assert!(rt; nested_answer(alloc, 31, b"N", b"I")? == Answer::No);
    Ok(())
}

#[test]
fn capture_of_a_list(rt: HostRuntime) -> Result<(), Fail> {
    let alloc = rt.alloc();
    let table = library(alloc)?;
    let mut env = Env {
        bounds: Items::new(alloc),
    };
    let captured = capture(alloc, &table, &mut env, &typed(alloc, b"N+L")?)?;
    let mut args = Items::new(alloc);
    args.push(Arg::Exact(Ty::Captured(CaptureId(0))))?;
    let wanted = Ty::Class {
        id: ClassId(7),
        args,
    };
    assert!(rt; same_type(&captured, &wanted) && env.bounds.len() == 1);
    if let Some(bounds) = env.bounds.get(0) {
        if let Some(upper) = bounds.uppers.get(0) {
            assert!(rt; same_type(upper, &typed(alloc, b"N")?) && bounds.lower.is_none());
        }
    }
    let inside = Arg::Exact(typed(alloc, b"I")?);
    let outside = Arg::Extends(typed(alloc, b"N")?);
    assert!(rt; contained(alloc, &table, &env, &inside, &outside)? == Answer::Yes);
    Ok(())
}

#[test]
fn two_classes_meet_in_a_capture(rt: HostRuntime) -> Result<(), Fail> {
    let alloc = rt.alloc();
    let table = library(alloc)?;
    let mut env = Env {
        bounds: Items::new(alloc),
    };
    let refused = capture(alloc, &table, &mut env, &typed(alloc, b"S+B")?);
    assert!(rt; refused.is_err() && env.bounds.is_empty());
    Ok(())
}
