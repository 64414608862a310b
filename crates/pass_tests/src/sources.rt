//! Sources, and their programs and graphs.

use cerco_base::{Fault, NoMemory};
use cerco_middle::RtLabs;
use clight_check::check;
use clight_reader::parse;
use clight_syntax::Labelled;
use clight_tokens::tokens;
use cminor_gen::to_cminor;
use cost_labels::label;
use rtlabs_gen::to_rtlabs;
use std::alloc::Global;

/// An `if` with two arms, of which one does nothing.
pub const ARMS: &str = "void main(void){unsigned char a;a=P1;if(a);else P1=1;}";

/// A `do` with a `break`.
pub const DO_LOOP: &str =
    "void main(void){unsigned char a;unsigned char b;a=P1;b=P1;do{if(a)break;}while(b);}";

/// A `while` with `&&`.
pub const WHILE_BOTH: &str =
    "void main(void){unsigned char a;unsigned char b;a=P1;b=P1;while(a&&b){a=0;P1=b;}}";

/// A loop that is never come to.
pub const UNREACHABLE: &str = "void main(void){return;P1=1;while(1);}";

/// A ring buffer whose last 16 readings are summed.
#[rattlefmt::skip]
pub const RING: &str = "unsigned char ring[32];unsigned char head;unsigned char tail;unsigned char fill;unsigned int total;\
unsigned char last=255;unsigned char level=255;\
void put(unsigned char b){ring[head]=b;head=(head+1)&31;fill=fill+1;}\
unsigned char get(void){unsigned char b;b=ring[tail];tail=(tail+1)&31;fill=fill-1;return b;}\
void add(unsigned char b){unsigned char old;if(fill>=16){old=get();total=total-old;}put(b);total=total+b;}\
void sample(void){unsigned char b;b=P1;if(b==last)level=b;last=b;add(level);}\
void main(void){while(1){sample();P1=total>>4;}}";

/// Programs over all forms.
#[rattlefmt::skip]
pub const SOURCES: [&str; 25] = [
    "void main(void){}",
    "void main(void){unsigned char x;x=P1;}",
    "void main(void){unsigned char x;x=P1;P1=x;x=P1;P1=x;}",
    ARMS,
    DO_LOOP,
    WHILE_BOTH,
    "void main(void){signed char a;unsigned char b;a=P1;b=P1;if(a<1)P1=1;if(b<1)P1=2;}",
    "void main(void){int c;unsigned int d;c=-1;d=0xFFFF;if(c<1)P1=1;if(d<1)P1=2;if(c==d)P1=3;}",
    "void main(void){unsigned char i;i=0;while(i<2){P1=i;P1=i;P1=i;i=i+1;}}",
    "void main(void){P1=((((((((((((((((((((((((((((((((((((((((((((((((((((((((((((((((1))))))))))))))))))))))))))))))))))))))))))))))))))))))))))))))));}",
    RING,
    "void main(void){unsigned char a;unsigned char b;a=P1;b=8;b=b/a;P1=b;}",
    UNREACHABLE,
    "unsigned char a[65534];void main(void){}",
    "void main(void){while(1){while(1)break;}}",
    "void main(void){return;while(1)P1=1;}",
    "void main(void){unsigned char i;for(i=0;i<9;i=i+1){if(i==1)continue;if(i==3)break;P1=i;}}",
    "void main(void){for(;;);}",
    "void main(void){unsigned char a;a=P1;if(!(a||!a&&a))P1=1;else{}do;while(!a&&a);}",
    "unsigned char f(unsigned char a,int b){if(a||!(b&&a))return b;return a;}void main(void){unsigned char i;i=f(1,2);f(i,i);P1=i;}",
    "unsigned char f(void){while(1){while(1)return 3;}}void main(void){unsigned char i;i=f();P1=i;}",
    "int g[3]={1,2};struct s{int a;char b;};struct s x;void main(void){int *p;p=&g[1];*p=*p+g[2];x.b=*p;P1=x.b;}",
    "int t;void main(void){int *p;p=&t;*p=-*p+2;*p=~*p<<3;*p=*p>>1;P1=*p|t^3&t;P1=p==&t;}",
    "void f(void){while(1)if(1)continue;else break;}void main(void){do do f();while(0);while(1);}",
    "int f(int a,signed char b,unsigned char*p){*p=b+a;return a-b;}void main(void){unsigned char t[2];int r;r=f(300,-5,&t[1]);P1=t[1];P1=r;P1=r>>8;}",
];

/// The program of a text with its cost labels.
pub fn labelled(alloc: Global, text: &str) -> Result<Labelled, Fault> {
    let list = tokens(alloc, text.as_bytes())?;
    let typed = check(alloc, parse(alloc, &list)?)?;
    Ok(label(alloc, typed)?)
}

/// The graphs of a program.
pub fn graphs_of(alloc: Global, program: &Labelled) -> Result<RtLabs, NoMemory> {
    let cminor = to_cminor(alloc, program)?;
    to_rtlabs(alloc, &cminor)
}

/// The graphs of a text.
pub fn graphs_of_text(alloc: Global, text: &str) -> Result<RtLabs, Fault> {
    let program = labelled(alloc, text)?;
    Ok(graphs_of(alloc, &program)?)
}
