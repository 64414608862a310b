//! The first part of a program that has no type.

use crate::sources::{length, see};
use cerco_base::{NoMemory, Reason, TypeKind};

// Texts of which the part without a type begins at the first byte of the second part.
#[rattlefmt::skip]
const TYPES: [(&str, &str, TypeKind); 150] = [
    // a `long` type, or a number that would be `long`
    ("void main(void){P1=", "40000;}", TypeKind::Long),
    ("void main(void){P1=-", "32768;}", TypeKind::Long),
    ("", "long g;void main(void){}", TypeKind::Long),
    ("int a;", "unsigned long int g;void main(void){}", TypeKind::Long),
    ("", "long*p;void main(void){}", TypeKind::Long),
    ("", "long f(void){return 1;}void main(void){}", TypeKind::Long),
    ("void f(int a,", "long b){}void main(void){}", TypeKind::Long),
    ("struct s{", "signed long a;};void main(void){}", TypeKind::Long),
    ("void main(void){P1=(", "long)(2*3);}", TypeKind::Long),
    ("int g=-", "40000;void main(void){}", TypeKind::Long),
    ("int t[1]={1,", "40000};void main(void){}", TypeKind::Long),
    // a size that is not 1 to 65,534 bytes
    ("char ", "t[65535];void main(void){}", TypeKind::Size),
    ("char ", "t[0];void main(void){}", TypeKind::Size),
    ("int ", "*t[32768];void main(void){}", TypeKind::Size),
    ("char ", "t[256][256];void main(void){}", TypeKind::Size),
    ("void main(void){char ", "t[65535];}", TypeKind::Size),
    ("", "struct s{char a[40000];char b[40000];};void main(void){}", TypeKind::Size),
    ("struct s{char ", "a[65535];int b;};void main(void){}", TypeKind::Size),
    ("char ", "t[0]={1};void main(void){}", TypeKind::Size),
    // `void` elsewhere than as a result or an empty parameter list
    ("", "void g;void main(void){}", TypeKind::Void),
    ("", "void*p;void main(void){}", TypeKind::Void),
    ("", "void t[0];void main(void){}", TypeKind::Void),
    ("", "void*f(void){return 0;}void main(void){}", TypeKind::Void),
    ("void f(", "void a){}void main(void){}", TypeKind::Void),
    ("void f(", "void*a){}void main(void){}", TypeKind::Void),
    ("struct s{", "void a;};void main(void){}", TypeKind::Void),
    ("void main(void){", "void x=1/2;}", TypeKind::Void),
    ("void main(void){P1=(", "void)(1/2);}", TypeKind::Void),
    // no struct, no pointer to one, or no such member
    ("struct s{int a;};struct s x;void main(void){P1=x", ".b;}", TypeKind::Member),
    ("struct s{int a;};struct s x;void main(void){P1=x", "->a;}", TypeKind::Member),
    ("struct s{int a;};struct s*p;void main(void){P1=p", ".a;}", TypeKind::Member),
    ("int*p;void main(void){P1=p", "->a;}", TypeKind::Member),
    ("int x;void main(void){P1=x", ".x;}", TypeKind::Member),
    ("void f(void){}void main(void){P1=f", ".a;}", TypeKind::Member),
    ("struct s{int a;};struct s x;void main(void){P1=x", ".b+1/2;}", TypeKind::Member),
    // operands that an operator doesn't take
    ("void main(void){P1=1/(2", "*3);}", TypeKind::Operand),
    ("int*p;int*q;void main(void){p=p", "+q;}", TypeKind::Operand),
    ("int*p;void main(void){p=1", "-p;}", TypeKind::Operand),
    ("int*p;void main(void){P1=", "-p;}", TypeKind::Operand),
    ("int*p;void main(void){P1=", "(int)p;}", TypeKind::Operand),
    ("struct s{int a;};void main(void){P1=", "(struct s)1;}", TypeKind::Operand),
    ("int*p;char*q;void main(void){if(p", "<q);}", TypeKind::Operand),
    ("int*p;void main(void){if(p", "<0);}", TypeKind::Operand),
    ("int*p;void main(void){if(p", "==1);}", TypeKind::Operand),
    ("int x;void main(void){P1=", "*x;}", TypeKind::Operand),
    ("int x;void main(void){", "*x=1/2;}", TypeKind::Operand),
    ("int x;void main(void){", "*x=P1;}", TypeKind::Operand),
    ("char t[2];char*p;void main(void){p=", "&t;}", TypeKind::Operand),
    ("void f(void){}char*p;void main(void){p=", "&f;}", TypeKind::Operand),
    ("struct s{char a;int b;};struct s t[4];int i;void main(void){P1=t", "[i].b;}", TypeKind::Operand),
    ("struct s{char a[300];};struct s t[4];char i;void main(void){P1=t", "[i].a[0];}", TypeKind::Operand),
    // operands that `/` or `%` doesn't take
    ("void main(void){P1=1", "/2;}", TypeKind::Division),
    ("char a;int b;void main(void){P1=a", "%b;}", TypeKind::Division),
    ("signed char a;void main(void){P1=a", "/a;}", TypeKind::Division),
    ("void main(void){P1=(1", "/2)<<16;}", TypeKind::Division),
    ("char a;int*p;void main(void){p=a/a+1", "%a;}", TypeKind::Division),
    ("void main(void){int*p=1", "/2;}", TypeKind::Division),
    ("void f(int a){}void main(void){f(1", "/2,3);}", TypeKind::Division),
    ("void f(int a,int b,int c,int d,int e,int g,char h){P1=1", "/2;}void main(void){}", TypeKind::Division),
    ("void f(int a);void f(char a){P1=1", "/2;}void main(void){}", TypeKind::Division),
    ("void main(void){return 1", "/2;}", TypeKind::Division),
    ("void f(void){f();}void main(void){P1=1", "/2;}", TypeKind::Division),
    // operands that a shift doesn't take
    ("void main(void){P1=1", "<<16;}", TypeKind::Shift),
    ("char a;void main(void){P1=1", ">>a;}", TypeKind::Shift),
    ("int*p;void main(void){P1=p", "<<1;}", TypeKind::Shift),
    ("int*p;void main(void){p=1", "<<16;}", TypeKind::Shift),
    ("void main(void){P1=1", "<<(1+1);}", TypeKind::Shift),
    // `!`, `&&`, `||`, a struct or a function where a value is needed
    ("char a;void main(void){P1=", "!a;}", TypeKind::Value),
    ("char a;char b;void main(void){P1=a", "&&b;}", TypeKind::Value),
    ("char a;char b;void main(void){P1=1+(a", "||b);}", TypeKind::Value),
    ("char x;void main(void){", "!x=1;}", TypeKind::Value),
    ("char a;void main(void){P1=", "!a<<16;}", TypeKind::Value),
    ("struct s{int a;};struct s x;void main(void){P1=", "x;}", TypeKind::Value),
    ("struct s{int a;};struct s x;void main(void){P1=", "(x);}", TypeKind::Value),
    ("struct s{int a;};struct s x;void main(void){P1=-", "x;}", TypeKind::Value),
    ("struct s{int a;};struct s x;void main(void){P1=", "x[1];}", TypeKind::Value),
    ("struct s{int a;};struct s x;struct s y;void main(void){x=", "y;}", TypeKind::Value),
    ("struct s{int a;};struct s x;void f(int a){}void main(void){f(", "x);}", TypeKind::Value),
    ("void f(void){}void main(void){P1=", "f;}", TypeKind::Value),
    ("void f(void){}void main(void){P1=(", "f);}", TypeKind::Value),
    ("void f(void){}void main(void){P1=*", "f;}", TypeKind::Value),
    ("struct s{int a;};void f(struct s ", "x){}void main(void){}", TypeKind::Value),
    ("struct s{int a;};struct s ", "f(void){}void main(void){}", TypeKind::Value),
    // no condition
    ("struct s{int a;};struct s x;void main(void){if(", "x);}", TypeKind::Condition),
    ("void f(void){}void main(void){while(", "f);}", TypeKind::Condition),
    ("struct s{int a;};struct s x;void main(void){do;while(!", "x);}", TypeKind::Condition),
    ("struct s{int a;};struct s x;void main(void){for(;", "x&&1/2;);}", TypeKind::Condition),
    // a place that can't be assigned to, or not this value
    ("char a;char*p;void main(void){a", "=p;}", TypeKind::Assign),
    ("int*p;void main(void){p", "=1;}", TypeKind::Assign),
    ("int*p;char*q;void main(void){p", "=q;}", TypeKind::Assign),
    ("void main(void){1", "=2;}", TypeKind::Assign),
    ("void f(void){}void main(void){f", "=1;}", TypeKind::Assign),
    ("char t[2];void main(void){t", "=1;}", TypeKind::Assign),
    ("struct s{int a;};struct s x;void main(void){x", "=1;}", TypeKind::Assign),
    ("int*p;void main(void){for(p", "=1;;);}", TypeKind::Assign),
    ("int*p;void main(void){if(1)p", "=1;else break;}", TypeKind::Assign),
    // an initialiser that isn't allowed
    ("int t[2]", "={1,2,3};void main(void){}", TypeKind::Init),
    ("int a", "={1};void main(void){}", TypeKind::Init),
    ("int t[2]", "=1;void main(void){}", TypeKind::Init),
    ("int*p", "=0;void main(void){}", TypeKind::Init),
    ("int t[2][2]", "={1};void main(void){}", TypeKind::Init),
    ("void main(void){int*p", "=1;}", TypeKind::Init),
    ("void main(void){int t[2]", "=1;}", TypeKind::Init),
    ("struct s{int a;};void main(void){struct s x", "=1;}", TypeKind::Init),
    ("int a", "={1};long g;void main(void){}", TypeKind::Init),
    // no function, other arguments, or a result that can't be used so
    ("int x;void main(void){", "x();}", TypeKind::Call),
    ("void f(int a){}void main(void){", "f();}", TypeKind::Call),
    ("void f(void){}void main(void){", "f(1);}", TypeKind::Call),
    ("void f(int*p){}void main(void){", "f(1);}", TypeKind::Call),
    ("void f(void){}void main(void){int f;", "f();}", TypeKind::Call),
    ("void f(void){}void main(void){int x;x", "=f();}", TypeKind::Call),
    ("int x;int f(void){return 1;}void main(void){x", "=f();}", TypeKind::Call),
    ("int f(void){return 1;}void main(void){int x;int*p;x", "=f();p=&x;}", TypeKind::Call),
    ("int*f(void){return 0;}void main(void){int x;x", "=f();}", TypeKind::Call),
    ("void f(void){}void main(void){", "f(1);break;}", TypeKind::Call),
    // more than 12 bytes of parameters
    ("void ", "f(int a,int b,int c,int d,int e,int g,char h){}void main(void){}", TypeKind::Params),
    ("void ", "f(int a,int b,int c,int d,int e,int*g,char h);void f(int a){}void main(void){}", TypeKind::Params),
    ("void f(int a);void ", "f(int a,int b,int c,int d,int e,int g,char h){}void main(void){}", TypeKind::Params),
    // a value in a `void` function, none in another, or another
    ("void main(void){", "return 1;}", TypeKind::Return),
    ("int f(void){", "return;}void main(void){}", TypeKind::Return),
    ("int*f(void){", "return 1;}void main(void){}", TypeKind::Return),
    ("int f(void){if(1)", "return;break;}void main(void){}", TypeKind::Return),
    // `break` or `continue` outside a loop
    ("void main(void){", "break;}", TypeKind::Jump),
    ("void main(void){if(1)", "continue;}", TypeKind::Jump),
    ("void main(void){while(1)break;", "continue;}", TypeKind::Jump),
    ("void main(void){", "break;P1=1/2;}", TypeKind::Jump),
    // a port read into a wrong target, or no integer written
    ("int*p;void main(void){P1", "=p;}", TypeKind::Port),
    ("char x;void main(void){int*x;P1", "=x;}", TypeKind::Port),
    ("int x;void main(void){x", "=P1;}", TypeKind::Port),
    ("void main(void){int*p;p", "=P1;}", TypeKind::Port),
    ("void main(void){int x;int*p;x", "=P1;p=&x;}", TypeKind::Port),
    ("void main(void){char t[2];t[0]", "=P1;}", TypeKind::Port),
    ("void main(void){1", "=P1;}", TypeKind::Port),
    ("int*p;void main(void){P1", "=p;break;}", TypeKind::Port),
    // a prototype that differs from the definition
    ("void f(int a);void ", "f(char a){}void main(void){}", TypeKind::Prototype),
    ("int f(void);void ", "f(void){}void main(void){}", TypeKind::Prototype),
    ("void f(int a);void ", "f(int a,int b){}void main(void){}", TypeKind::Prototype),
    ("void f(int a);void ", "f(char a){}long g;void main(void){}", TypeKind::Prototype),
    // a function's name in parentheses is judged as the bare name is
    ("void f(void){}void main(void){P1=", "&(f);}", TypeKind::Operand),
    ("void f(void){}void main(void){(f)", "=1;}", TypeKind::Assign),
    ("void f(void){}void main(void){(f)", "=P1;}", TypeKind::Port),
    ("void f(void){}void main(void){P1=(f)", ".m;}", TypeKind::Member),
    ("void f(void){}void main(void){P1=((f))", "->m;}", TypeKind::Member),
    ("void f(void){}void main(void){if((", "f))P1=1;}", TypeKind::Condition),
    ("void f(void){}void main(void){if(!(", "f))P1=1;}", TypeKind::Condition),
    ("void f(void){}void main(void){if(1&&(", "f))P1=1;}", TypeKind::Condition),
    ("void f(void){}void main(void){if(((", "f))||1)P1=1;}", TypeKind::Condition),
    ("void f(void){}void main(void){P1=((", "f));}", TypeKind::Value),
    ("void f(void){}void main(void){P1=1+(", "f);}", TypeKind::Value),
    ("void f(void){}void main(void){P1=-(", "f);}", TypeKind::Value),
];

#[test]
fn parts_without_a_type_have_their_places(rt: HostRuntime) -> Result<(), NoMemory> {
    for (front, back, kind) in &TYPES {
        let text = format!(in rt.alloc(); "{front}{back}")?;
        let at = length(front);
        see(
            &rt,
            rt.alloc(),
            &text,
            Some(Reason::Typing { at, kind: *kind }),
        );
    }
    Ok(())
}
