//! Sound programs, and the first wrong name of others.

use crate::sources::{length, see};
use cerco_base::{NameKind, NoMemory, Reason};

// Texts of sound programs.
#[rattlefmt::skip]
const SOUND: [&str; 19] = [
    "void main(void){}",
    "int*x;void main(void){char x;x=P1;}",
    "char x;void f(void){int*x;x=0;}void main(void){P1=x;}",
    "struct s{struct s*next;char a;};struct s x;void main(void){x.next=&x;P1=x.next->next->a;}",
    "struct s{struct s*all[3];};void main(void){}",
    "struct main{int main;};void main(void){int main;}",
    "void f(void);void main(void){f();}void f(void){}",
    "void f(unsigned char a);void f(char b){}void main(void){f(1);}",
    "void f(int a,int b);void f(int b,int a){}void main(void){}",
    "void f(int a,int b,int c,int d,int e,int g){}void main(void){}",
    "void main(void){int a=a;}",
    "int g=-32767;unsigned h=40000u;int k=0x9000;int t[3]={1,-2};void main(void){P1=0100000;}",
    "int*p;void main(void){p=0;p=(0);if(p==0);if(0!=p)p=p;}",
    "char a;char b;void main(void){if((a||b)&&!(a&&b))P1=a*b;}",
    "struct s{char a;int b;};struct s t[4];void main(void){char i;P1=t[i].b;P1=t[(2)].b;}",
    "int f(void){return 1;}void main(void){char x;x=f();(x)=P1;}",
    "void f(void){}void main(void){int f;f=1;}",
    "char t[2];void main(void){char*p;p=t;p=&t[1];P1=p[0];P1=1<<(3);}",
    "int aaaaaaaaaaaaaaaaaaaaaaaaaaaaaaaaaaaaaaaaaaaaaaaaaaaaaaaaaaaaaaa;void main(void){}",
];

// Texts with a wrong name at the first byte of the second part.
#[rattlefmt::skip]
const NAMES: [(&str, &str, NameKind); 42] = [
    // begins with `__`
    ("void main(void){int ", "__a;}", NameKind::Reserved),
    ("void main(void){P1=", "__x;}", NameKind::Reserved),
    ("struct s{int a;};struct s x;void main(void){P1=x.", "__a;}", NameKind::Reserved),
    ("void ", "__f(void);void main(void){}", NameKind::Reserved),
    ("int ", "__aaaaaaaaaaaaaaaaaaaaaaaaaaaaaaaaaaaaaaaaaaaaaaaaaaaaaaaaaaaaaa;void main(void){}", NameKind::Reserved),
    // has more than 63 bytes
    ("int ", "aaaaaaaaaaaaaaaaaaaaaaaaaaaaaaaaaaaaaaaaaaaaaaaaaaaaaaaaaaaaaaaa;void main(void){}", NameKind::Long),
    ("void main(void){P1=", "aaaaaaaaaaaaaaaaaaaaaaaaaaaaaaaaaaaaaaaaaaaaaaaaaaaaaaaaaaaaaaaa;}", NameKind::Long),
    ("void ", "aaaaaaaaaaaaaaaaaaaaaaaaaaaaaaaaaaaaaaaaaaaaaaaaaaaaaaaaaaaaaaaa(void);void main(void){}", NameKind::Long),
    // declared before in its scope
    ("int a;char ", "a;void main(void){}", NameKind::Twice),
    ("void f(int a){int ", "a;}void main(void){}", NameKind::Twice),
    ("void main(void){int a;int ", "a;}", NameKind::Twice),
    ("void f(int a,int ", "a);void f(int a,int b){}void main(void){}", NameKind::Twice),
    ("struct s{int a;};struct ", "s{int b;};void main(void){}", NameKind::Twice),
    ("struct s{int a;char ", "a;};void main(void){}", NameKind::Twice),
    ("void f(void);void ", "f(void);void f(void){}void main(void){}", NameKind::Twice),
    ("void f(void){}void ", "f(void);void main(void){}", NameKind::Twice),
    ("void f(void){}void ", "f(void){}void main(void){}", NameKind::Twice),
    ("int f;void ", "f(void);void main(void){}", NameKind::Twice),
    ("void main(void){}int ", "main;", NameKind::Twice),
    // not declared
    ("void main(void){P1=", "x;}", NameKind::Unknown),
    ("void main(void){P1=", "x;}int x;", NameKind::Unknown),
    ("void main(void){", "f();}void f(void){}", NameKind::Unknown),
    ("void f(void){int a;}void main(void){P1=", "a;}", NameKind::Unknown),
    ("struct ", "s x;struct s{int a;};void main(void){}", NameKind::Unknown),
    ("struct s{struct ", "s a;};void main(void){}", NameKind::Unknown),
    ("struct s{struct ", "t*a;};void main(void){}", NameKind::Unknown),
    ("struct s{int a;};void main(void){P1=", "s;}", NameKind::Unknown),
    ("void main(void){int a=", "b;int b;}", NameKind::Unknown),
    ("int f(void){return 1;}void main(void){", "x=f();}", NameKind::Unknown),
    ("void main(void){P1=40000;P1=", "x;}", NameKind::Unknown),
    ("void main(void){P1=", "x;}void f(void);", NameKind::Unknown),
    // a prototype and no definition
    ("void ", "f(void);void main(void){}", NameKind::Undefined),
    ("void ", "f(void);void main(void){P1=x;}", NameKind::Undefined),
    ("int ", "main(void);", NameKind::Undefined),
    // `main` is missing or another
    ("", "", NameKind::Main),
    ("int g;", "", NameKind::Main),
    ("int ", "main(void){return 1;}", NameKind::Main),
    ("void ", "main(int a){}", NameKind::Main),
    ("char ", "main;", NameKind::Main),
    ("void*", "main(void){return 0;}", NameKind::Main),
    ("int ", "main(void);void main(void){}", NameKind::Main),
    ("char ", "main;void f(void);", NameKind::Main),
];

#[test]
fn sound_programs_are_accepted(rt: HostRuntime) {
    for text in &SOUND {
        see(&rt, rt.alloc(), text, None);
    }
}

#[test]
fn wrong_names_have_their_places(rt: HostRuntime) -> Result<(), NoMemory> {
    for (front, back, kind) in &NAMES {
        let text = format!(in rt.alloc(); "{front}{back}")?;
        let at = length(front);
        see(
            &rt,
            rt.alloc(),
            &text,
            Some(Reason::Name { at, kind: *kind }),
        );
    }
    Ok(())
}
