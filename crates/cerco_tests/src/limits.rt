//! The limits of calls and of data.

use crate::sources::{length, see};
use cerco_base::{NoMemory, Reason};
use std::alloc::Global;
use std::process::Abort;

// Texts of which the first function that calls itself is named at the first byte of the second part.
#[rattlefmt::skip]
const RECURSIONS: [(&str, &str); 6] = [
    ("void ", "f(void){f();}void main(void){}"),
    ("void g(void);void ", "f(void){g();}void g(void){f();}void main(void){}"),
    ("void ", "main(void){main();}"),
    ("void f(void);void h(void){f();}void ", "f(void){f();}void main(void){}"),
    ("int ", "f(void){int x;return 1;x=f();}void main(void){}"),
    ("char t[65534];char u;void ", "f(void){f();}void main(void){}"),
];

// Texts with the number of their bytes of data where these are too many.
#[rattlefmt::skip]
const DATA: [(&str, Option<u32>); 9] = [
    ("char t[65534];void main(void){}", None),
    ("char t[65534];char u;void main(void){}", Some(65_535)),
    ("char t[65530];void main(void){char u[4];}", None),
    ("char t[65530];void main(void){char u[5];}", Some(65_535)),
    ("char t[65530];void f(void){char a[2];}void main(void){char b[2];f();}", None),
    ("char t[65530];void f(void){char a[2];}void main(void){char b[3];f();}", Some(65_535)),
    ("char t[65530];void f(void){char a[3];}void g(void){char b[4];}void main(void){f();g();}", None),
    ("char t[65533];void main(void){int x;int*p;p=&x;}", Some(65_535)),
    ("char t[65534];void main(void){int x;x=1;}", None),
];

#[test]
fn recursions_have_their_places(rt: HostRuntime) -> Result<(), NoMemory> {
    for (front, back) in &RECURSIONS {
        let text = format!(in rt.alloc(); "{front}{back}")?;
        let at = length(front);
        see(&rt, rt.alloc(), &text, Some(Reason::Recursion { at }));
    }
    Ok(())
}

#[test]
fn data_have_their_limit(rt: HostRuntime) {
    for (text, total) in &DATA {
        let wanted = total.map(|total| Reason::DataFull { total });
        see(&rt, rt.alloc(), text, wanted);
    }
}

// A call path of so many functions and `main`, before which other data stand.
fn call_path(alloc: Global, functions: u32, data: &str) -> Result<String, NoMemory> {
    let mut text = String::new(alloc);
    text.push_str(data)?;
    text.push_str("void f0(void){}")?;
    let mut callee = 0u32;
    for caller in 1..functions {
        let function = format!(in alloc; "void f{caller}(void){{f{callee}();}}")?;
        text.push_str(&function)?;
        callee = caller;
    }
    let last = format!(in alloc; "void main(void){{f{callee}();}}")?;
    text.push_str(&last)?;
    Ok(text)
}

// Sees why a call path of so many functions and `main` is refused.
fn see_path(
    rt: &impl Abort,
    alloc: Global,
    functions: u32,
    data: &str,
    wanted: Option<Reason>,
) -> Result<(), NoMemory> {
    let text = call_path(alloc, functions, data)?;
    see(rt, alloc, &text, wanted);
    Ok(())
}

#[test]
fn call_paths_have_64_functions_at_most(rt: HostRuntime) -> Result<(), NoMemory> {
    let alloc = rt.alloc();
    let deep = Some(Reason::StackFull { depth: 65 });
    let cycle = Some(Reason::Recursion { at: 5 });
    see_path(&rt, alloc, 63, "", None)?;
    see_path(&rt, alloc, 64, "", deep)?;
    see_path(&rt, alloc, 64, "char t[65534];char u;", deep)?;
    see_path(&rt, alloc, 64, "void r(void){r();}", cycle)
}
