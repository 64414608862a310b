//! The texts of the generator. The expected ones were made by a program in Python.

use sample_texts::sample_text;
use std::test::Fail;

#[test]
fn the_text_with_one_function(rt: HostRuntime) -> Result<(), Fail> {
    assert_eq!(rt;
        sample_text(rt.alloc(), 1, 1)?.as_slice(),
        b"unsigned int f0(unsigned int a){unsigned int b;unsigned char i;b=a;i=0;while(i<17){b=b+24200u^33046u;if(b&1)b=b^46195u;i=i+1;}return b;}\nvoid main(void){unsigned int x;x=3312u;x=f0(x);P1=x;}\n".as_slice()
    );
    Ok(())
}

#[test]
fn a_text_with_two_functions_from_the_greatest_seed(rt: HostRuntime) -> Result<(), Fail> {
    assert_eq!(rt;
        sample_text(rt.alloc(), 4_294_967_295, 2)?.as_slice(),
        b"unsigned int f0(unsigned int a){unsigned int b;unsigned char i;b=a;i=0;while(i<6){b=b+12311u^8835u;if(b&1)b=b^41343u;i=i+1;}return b;}\nunsigned int f1(unsigned int a){unsigned int b;unsigned char i;b=a;i=0;while(i<10){b=b+57284u^59813u;if(b&1)b=b^47440u;i=i+1;}return b;}\nvoid main(void){unsigned int x;x=65474u;x=f0(x);P1=x;x=f1(x);P1=x;}\n".as_slice()
    );
    Ok(())
}

#[test]
fn a_text_with_64_functions_is_long(rt: HostRuntime) -> Result<(), Fail> {
    assert_eq!(rt; sample_text(rt.alloc(), 7, 64)?.len(), 9_689);
    Ok(())
}
