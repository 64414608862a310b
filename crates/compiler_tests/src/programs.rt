//! Programs over all forms of the profile: the object does what the program means, in the cycles that its costs say.

use crate::runs::agrees;
use cerco_base::Fault;
use std::alloc::Global;
use std::process::Abort;

#[rattlefmt::skip]
const SCRIPTS: [&[u8]; 5] = [b"", b"\x00\x00\x00\x00", b"\x01\x02\x03\x04\x05", b"\xFF\x80\x7F\x01\x00\xFE", b"\x05\x05\x09\x09\x02"];

// Loops and jumps.
#[rattlefmt::skip]
const LOOPS: [&str; 16] = [
    "void main(void){unsigned char i;for(i=0;i<9;i=i+1){if(i==1)continue;if(i==3)break;P1=i;}}",
    "void main(void){unsigned char i;unsigned char j;for(i=0;i<3;i=i+1)for(j=0;j<3;j=j+1){if(i==j)continue;P1=i+j;}}",
    "void main(void){unsigned char i;unsigned char j;i=3;do{j=i;while(j){j=j-1;if(j==1)break;P1=j;}i=i-1;}while(i);}",
    "void main(void){unsigned char x;for(;;){x=P1;if(x==255)break;P1=x;}}",
    "void main(void){return;P1=1;while(1);}",
    "void f(void){while(1)if(1)continue;else break;}void main(void){P1=1;}",
    "void main(void){unsigned char i;unsigned char j;unsigned char k;for(i=0;i<3;i=i+1){j=0;while(1){j=j+1;if(j>2)break;for(k=0;;k=k+1){if(k==j)break;if(k==1)continue;P1=(i<<4)+(j<<2)+k;}}}}",
    "void main(void){int i;int j;for(i=-2;i<3;i=i+1){j=i;do{if(j>1)break;j=j+1;if(j==0)continue;P1=j;}while(j<2);}}",
    "void main(void){unsigned char x;x=P1;do{x=x>>1;if(x&1)continue;P1=x;}while(x);}",
    "void main(void){unsigned char x;x=P1;while(!(x==0)){x=x-(x>>1);if(!(x!=1))break;P1=x;}}",
    "void main(void){unsigned char i;i=0;for(;i<5&&i!=3;){i=i+1;P1=i;}for(i=9;;i=i-2){if(i<4)break;P1=i;}for(;i;i=0)P1=7;}",
    "void main(void){;{}{;{P1=1;}}if(1){}else;while(0);do{}while(0);for(;0;);if(2)P1=2;}",
    "void main(void){unsigned char s;unsigned char x;s=0;for(;;){x=P1;if(x==255)break;if(s==0){if(x==1)s=1;else s=0;}else if(s==1){if(x==2)s=2;else s=0;}else{P1=s;s=0;}}P1=s;}",
    "void main(void){unsigned char x;unsigned int sum;sum=0;do{x=P1;sum=sum+x;}while(x!=255);P1=sum;P1=sum>>8;}",
    "unsigned char find(unsigned char x){unsigned char i;for(i=0;i<10;i=i+1){if(i+i==x)return i;while(i>6){if(x)return 77;break;}}return 99;}void main(void){unsigned char x;x=P1;x=find(x);P1=x;x=find(0);P1=x;x=find(15);P1=x;}",
    "void main(void){while(1){do{for(;;)break;if(1)break;}while(1);break;}P1=1;return;while(1)continue;}",
];

// Conditions, and values of comparisons.
#[rattlefmt::skip]
const CONDITIONS: [&str; 6] = [
    "void main(void){unsigned char a;unsigned char b;a=P1;b=P1;while(a||b){if(a)a=a-1;else b=b-1;P1=b;}}",
    "void main(void){unsigned char a;unsigned char b;unsigned char c;a=P1;b=P1;c=P1;if(a&&b&&c)P1=1;if(a||b||c)P1=2;if(a&&(b||c))P1=3;if((a||b)&&c)P1=4;if(!(a&&!(b||!c)))P1=5;}",
    "void main(void){unsigned char a;unsigned char b;a=P1;b=3;do{b=b-1;P1=b;}while(b&&a||b==2);}",
    "void main(void){unsigned char x;int r;x=P1;r=(x<5)+(x>=5)+(x==5)+(x!=5);P1=r;r=-(x<5);P1=r;P1=r>>8;P1=~(x==7);P1=(x>3)<<7;}",
    "void main(void){int x;int y;x=P1;y=P1;y=y-128;x=x-y;for(;x>y&&!(x==3)||y<-100;x=x-50){P1=x;if(!(y&&x))y=y+100;}}",
    "int *p;int x;void main(void){unsigned char a;a=P1;if(p||a)P1=1;p=&x;if(p&&!a)P1=2;while(p&&(a||!p)){P1=a;p=0;}if(!p)P1=3;}",
];

// Integers of each type, their conversions, operators and first values.
#[rattlefmt::skip]
const NUMBERS: [&str; 13] = [
    "unsigned int crc=0xFFFF;void add(unsigned char b){unsigned char i;crc=crc^(b<<8);for(i=0;i<8;i=i+1){if(crc&0x8000)crc=(crc<<1)^0x1021;else crc=crc<<1;}}void main(void){unsigned char x;x=P1;add(x);P1=crc;P1=crc>>8;}",
    "unsigned char fib(unsigned char n){unsigned char a;unsigned char b;unsigned char c;a=0;b=1;while(n){c=a+b;a=b;b=c;n=n-1;}return a;}void main(void){unsigned char x;x=fib(11);P1=x;}",
    "signed char s=-3;unsigned char u=253;void main(void){P1=s==u;P1=s+u;P1=(unsigned char)s==u;P1=s>>1;P1=u>>1;P1=-s;P1=~u;if(!s)P1=1;}",
    "void main(void){int x;int y;x=P1;{y=3;P1=y;}P1=x;}",
    "void main(void){unsigned char a;signed char b;int c;unsigned int d;a=P1;b=a;c=b;d=b;P1=c;P1=c>>8;P1=d>>8;c=(unsigned char)b;P1=c>>8;c=(signed char)a;P1=c>>8;d=(unsigned int)(signed char)a;P1=d>>8;P1=(int)a>>8;P1=(unsigned char)c==a;}",
    "void main(void){int x;signed char y;unsigned int z;x=P1;y=P1;z=P1;P1=x>>8;P1=y>>7;P1=z>>8;if(y<0)P1=1;if(z<200)P1=2;if(x<200)P1=3;}",
    "void main(void){int x;unsigned int y;x=P1;x=(x<<8)+1;y=x;P1=x>>0;P1=x>>4;P1=x>>7;P1=x>>8;P1=x>>9;P1=x>>15;P1=y>>1>>7;P1=y>>9;P1=y>>12;P1=y>>15;P1=x<<1>>8;P1=y<<7>>8;P1=x<<15>>8;P1=y<<8>>15;}",
    "void main(void){int x;signed char c;x=32767;x=x+1;if(x<0)P1=1;x=x-1;if(x>0)P1=2;if(-32767-1<x)P1=3;if(x<0x8000)P1=4;if(-1>0x8000)P1=5;c=127;c=c+1;P1=c==-128;P1=c<0;c=-c;P1=c==-128;}",
    "int a=-300;unsigned int b=0xFEDC;signed char c=-128;unsigned char d=0377;int t[4]={1,-2,0x7FFF,-0x8000};signed char u[3]={-1,127};void main(void){P1=a;P1=a>>8;P1=b;P1=b>>8;P1=c;P1=d;P1=t[1];P1=t[1]>>8;P1=t[3]>>8;P1=t[2];P1=u[0];P1=u[1];P1=u[2];}",
    "unsigned int gcd(unsigned int a,unsigned int b){while(a!=b)if(a>b)a=a-b;else b=b-a;return a;}void main(void){unsigned int r;r=gcd(1071,462);P1=r;r=gcd(60000u,45000u);P1=r;P1=r>>8;}",
    "unsigned int mul(unsigned int a,unsigned int b){unsigned int r;r=0;while(b){if(b&1)r=r+a;a=a<<1;b=b>>1;}return r;}void main(void){unsigned int r;unsigned char x;x=P1;r=mul(300,x);P1=r;P1=r>>8;}",
    "void main(void){int a;int b;int c;int d;a=P1;b=P1;c=P1;d=P1;a=a-(b-(c-(d-(a-(b-(c-(d-1)))))));P1=a;P1=a>>8;b=((a+b)-(c^d))|((a&b)+(c|d))-((a<<2)-(b>>1));P1=b;P1=b>>8;}",
    "void main(void){unsigned char x;unsigned char y;x=P1;y=P1;P1=x;y=x%y;P1=y;y=x/(unsigned char)(y+1);P1=y;P1=x*x>>8;}",
];

// Calls: parameters, results, call paths, and what is kept over a call.
#[rattlefmt::skip]
const CALLS: [&str; 15] = [
    "int f(int a,int b,int c,int d,int e,int g){return a-b+c-d+e-g;}void main(void){int r;r=f(1,20,300,4000,5,-6);P1=r;P1=r>>8;}",
    "unsigned char f(unsigned char a,int b){if(a||!(b&&a))return b;return a;}void main(void){unsigned char i;i=P1;i=f(i,2);f(i,i);P1=i;}",
    "unsigned char f(void){while(1){while(1)return 3;}}void main(void){unsigned char i;i=f();P1=i;}",
    "unsigned char f(void){}void main(void){unsigned char x;x=7;x=f();P1=x;}",
    "int s(int a){return a+1;}int t(int a){int b;b=s(a);b=s(b);return b+b;}void main(void){int x;x=P1;x=t(x);P1=x;P1=x>>8;}",
    "unsigned char n;void up(void){n=n+1;}void twice(void){up();up();}void main(void){twice();twice();P1=n;if(n==4&&n!=5||n>9)P1=1;}",
    "unsigned char f(unsigned char a,unsigned char b,unsigned char c,unsigned char d,unsigned char e,unsigned char g,unsigned char h,unsigned char i,unsigned char j,unsigned char k,unsigned char l,unsigned char m){P1=a;P1=m;P1=g;P1=h;return a-b+c-d+e-g+h-i+j-k+l+l-m;}void main(void){unsigned char x;x=P1;x=f(x,2,3,4,5,6,7,8,x,10,11,12);P1=x;x=f(1,x,x,x,x,x,x,x,x,x,x,3);P1=x;}",
    "unsigned char t[3]={4,5,6};int f(unsigned char a,int b,unsigned char*p,signed char c,int d,unsigned int e,unsigned char g,unsigned char h){*p=h;return a+b+*p+c+d+e+g-h;}void main(void){int r;r=f(1,-2,&t[1],-3,400,0xFFF0,5,6);P1=r;P1=r>>8;P1=t[1];}",
    "int f(int a,int b,int c,int d,int e,int g){int x;x=a;a=b;b=x;return a-b+c-d+(e-g);}int h(int a,int b,int c,int d,int e,int g){int r;r=f(g,e,d,c,b,a);return r-a;}void main(void){int r;r=h(1,20,300,4000,5,-6);P1=r;P1=r>>8;}",
    "int g(int x);int f(int x){int y;y=g(x);return y+1;}int g(int x){return x<<1;}void main(void){int r;r=f(21);P1=r;}",
    "unsigned char n;unsigned char next(void){n=n+1;return n;}void main(void){unsigned char x;next();next();x=next();P1=x;P1=n;}",
    "unsigned char a(unsigned char x){return x+1;}unsigned char b(unsigned char x){unsigned char y;y=a(x);return x+y;}unsigned char c(unsigned char x){unsigned char y;unsigned char z;y=b(x);z=a(y);return x+y+z;}unsigned char d(unsigned char x){unsigned char y;y=c(x);x=b(y);return x-y;}void main(void){unsigned char x;unsigned char y;x=P1;y=d(x);P1=x;P1=y;y=c(y);P1=y;}",
    "int x=5;int f(int x){return x+1;}void main(void){int y=3;unsigned char z=y+4;y=f(x);{x=y;}P1=x;P1=z;}",
    "int*f(void){}void g(int*p){if(p)P1=1;else P1=2;}void main(void){int*p;int x;x=1;p=&x;p=f();g(p);g(&x);g(0);}",
    "void f(void){}void main(void){unsigned char a;unsigned char b;unsigned char c;unsigned char d;unsigned char e;unsigned int g;unsigned int h;int i;int j;a=P1;b=P1;c=a+b;d=a-b;e=a^b;g=a;g=g<<8;h=g+b;i=g;j=b-300;f();P1=a;P1=b;P1=c;P1=d;P1=e;P1=g>>8;P1=h;P1=i>>8;P1=j>>8;P1=j;}",
];

// Arrays, structs and pointers.
#[rattlefmt::skip]
const MEMORY: [&str; 22] = [
    "int g[3]={1,2};void main(void){int *p;p=&g[1];*p=*p+g[2]+5;P1=g[1];P1=g[0];p=p+1;*p=300;P1=g[2]>>8;P1=p==&g[2];}",
    "struct s{int a;char b;};struct s x;struct s y[3];void main(void){struct s *p;x.a=513;x.b=-7;P1=x.a>>8;P1=x.b;p=&y[2];p->a=9;(*p).b=4;P1=y[2].a+y[2].b;}",
    "struct in{unsigned char t[3];int n;};struct out{struct in x[2];unsigned char *p;};struct out o;unsigned char c=5;void main(void){o.x[1].t[2]=7;o.x[0].n=-2;o.p=&c;*o.p=o.x[1].t[2]+1;P1=c;P1=o.x[0].n;}",
    "unsigned char t[5]={1,2,3,4,5};void main(void){unsigned char i;unsigned char *p;p=t;for(i=0;i<5;i=i+1){P1=*p;p=p+1;}P1=p>t;P1=p-1==&t[4];}",
    "void swap(int *a,int *b){int c;c=*a;*a=*b;*b=c;}void main(void){int x;int y;x=258;y=3;swap(&x,&y);P1=x;P1=y;P1=y>>8;}",
    "unsigned char *find(unsigned char *p,unsigned char c){while(*p!=c)p=p+1;return p;}unsigned char t[4]={9,8,7,6};void main(void){unsigned char *q;q=find(t,7);*q=1;P1=t[2];P1=q==&t[2];}",
    "int *q;void main(void){int a[2];int *p;a[0]=1;a[1]=2;p=a;q=&a[1];P1=*p+*q;P1=p<q;P1=p!=q;if(!p)P1=9;p=0;if(!p)P1=8;}",
    "int **r;int *p;int x=77;void main(void){p=&x;r=&p;**r=**r+1;P1=x;}",
    "unsigned char a[2][3];void main(void){unsigned char i;for(i=0;i<3;i=i+1){a[0][i]=i;a[1][i]=i+i;}P1=a[1][2]+a[0][1];}",
    "struct s{int a;struct s*n;};struct s x;struct s y;struct s*last(struct s*p){while(p->n)p=p->n;return p;}void main(void){struct s*q;x.a=1;y.a=2;x.n=&y;q=last(&x);P1=q->a;q->a=9;P1=y.a;P1=x.n->a;q->n=0;}",
    "struct s{unsigned char v;struct s*n;};struct s a[4];void main(void){struct s*p;unsigned char i;p=0;for(i=0;i<4;i=i+1){a[i].v=i+i;a[i].n=p;p=&a[i];}while(p){P1=p->v;p=p->n;}}",
    "struct s{unsigned char a;int b;};struct s t[5];int u[4];void main(void){struct s*p;int*q;unsigned char i;int j;i=2;j=3;p=&t[0];p=p+i;p->b=7;p=p+2;p->a=8;p=p-i;P1=p->b;P1=t[4].a;q=u;q=q+j;*q=300;q=q-1;*q=5;P1=u[3]>>8;P1=u[2];q=1+q;P1=*q;j=-1;P1=q[j];P1=q[-1];i=1;q=u+i;P1=q-i==u;}",
    "int t[4];void main(void){int*p;int*q;p=t;q=&t[3];P1=p<q;P1=p<=q;P1=p>q;P1=p>=q;P1=p==q;P1=p!=q;p=p+3;P1=p==q;P1=p>=q;P1=p==0;p=0;P1=p==0;P1=p!=q;P1=0==p;P1=0!=q;}",
    "void set(int**p,int*q){*p=q;}void main(void){int x;int y;int*p;x=5;y=6;p=&x;set(&p,&y);*p=*p+1;P1=x;P1=y;P1=p==&y;}",
    "void inc(unsigned char*p){*p=*p+1;}unsigned char f(unsigned char a){inc(&a);inc(&a);return a;}void main(void){unsigned char x;x=P1;x=f(x);P1=x;}",
    "int m[3][4];void main(void){unsigned char i;unsigned char j;int*p;for(i=0;i<3;i=i+1)for(j=0;j<4;j=j+1)m[i][j]=(i<<4)+j;p=&m[1][0];P1=*(p+3);P1=m[2][1];p=m[2];P1=*p;P1=p[2];}",
    "unsigned char a=1;unsigned char b=2;struct s{unsigned char*p[2];int n;};struct s x;void main(void){x.p[0]=&a;x.p[1]=&b;x.n=-1;*x.p[0]=*x.p[1]+7;P1=a;P1=x.n;P1=x.p[0]==x.p[1];P1=&*x.p[0]==&a;}",
    "struct s{unsigned char a;int b[3];};struct s t[2];void main(void){struct s*p;int*q;p=&t[1];q=&p->b[2];*q=1027;P1=t[1].b[2]>>8;q=&t[0].b[1];*q=6;P1=t[0].b[1];P1=&p->a==&t[1].a;P1=&(*p).b[1]>&t[0].b[2];}",
    "struct p{int x;int y;};struct r{struct p a;struct p b;};struct r g;int width(struct r*q){return q->b.x-q->a.x;}void main(void){int w;struct p*c;g.a.x=3;g.b.x=300;c=&g.b;c->x=c->x+1;w=width(&g);P1=w;P1=w>>8;}",
    "unsigned char sum(unsigned char*p,unsigned char n){unsigned char s;s=0;while(n){s=s+*p;p=p+1;n=n-1;}return s;}unsigned char g(void){unsigned char t[4];unsigned char s;t[0]=1;t[1]=2;s=P1;t[2]=s;t[3]=4;s=sum(t,4);return s;}void main(void){unsigned char t[3];unsigned char s;t[0]=10;t[1]=20;t[2]=30;s=g();P1=s;s=sum(t,3);P1=s;}",
    "unsigned char t[5]={5,3,9,1,7};void main(void){unsigned char i;unsigned char j;unsigned char x;for(i=0;i<4;i=i+1)for(j=0;j<4-i;j=j+1)if(t[j]>t[j+1]){x=t[j];t[j]=t[j+1];t[j+1]=x;}for(i=0;i<5;i=i+1)P1=t[i];}",
    "struct s{signed char c;unsigned int w;char*p;};void fill(struct s*p,char*q){p->c=-1;p->w=0x1234;p->p=q;}void main(void){struct s x;char y[2];y[1]=6;fill(&x,y);x.p=x.p+1;P1=x.c;P1=x.w>>8;P1=x.w;P1=*x.p;*x.p=9;P1=y[1];}",
];

// Runs that meet a fault, on some scripts at least.
#[rattlefmt::skip]
const FAULTS: [&str; 7] = [
    "unsigned char a[2];void main(void){P1=a[1];P1=a[2];}",
    "void main(void){unsigned char*p;p=0;P1=1;P1=*p;P1=2;}",
    "unsigned char*p;void f(void){unsigned char x;x=3;p=&x;}void main(void){f();P1=1;P1=*p;}",
    "void main(void){unsigned char a[2];P1=7;a[0]=1;P1=a[0];P1=a[1];}",
    "int a[2];int b[2];void main(void){int*p;int*q;p=a;q=b;P1=p==q;P1=p!=q;p=p+2;P1=p==&a[2];P1=p==q;}",
    "int a[2];int b[2];void main(void){int*p;int*q;p=a;q=b;P1=1;P1=p<q;}",
    "struct s{int a;char b;};struct s t[2];void main(void){struct s*p;p=t;P1=3;p=p+2;P1=p==&t[2];p=p+1;P1=4;}",
];

// Sees that objects do what their programs mean.
fn see_all(rt: &impl Abort, alloc: Global, programs: &[&str]) -> Result<(), Fault> {
    for text in programs {
        assert!(rt; agrees(alloc, text.as_bytes(), &SCRIPTS)?, "{text}");
    }
    Ok(())
}

#[test]
fn loops(rt: HostRuntime) -> Result<(), Fault> {
    see_all(&rt, rt.alloc(), &LOOPS)
}

#[test]
fn conditions(rt: HostRuntime) -> Result<(), Fault> {
    see_all(&rt, rt.alloc(), &CONDITIONS)
}

#[test]
fn numbers(rt: HostRuntime) -> Result<(), Fault> {
    see_all(&rt, rt.alloc(), &NUMBERS)
}

#[test]
fn calls(rt: HostRuntime) -> Result<(), Fault> {
    see_all(&rt, rt.alloc(), &CALLS)
}

#[test]
fn memory(rt: HostRuntime) -> Result<(), Fault> {
    see_all(&rt, rt.alloc(), &MEMORY)
}

#[test]
fn faults(rt: HostRuntime) -> Result<(), Fault> {
    see_all(&rt, rt.alloc(), &FAULTS)
}
