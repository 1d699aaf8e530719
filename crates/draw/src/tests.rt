use crate::serving::serve;
use std::io;
use std::io::{ErrorKind, Read, Write};
use std::test::Fail;

const FILE: &str = "1,1,1\n1\n1,1,1,5,0\n1,1,2,-4,4\n1,2,3,7,4\n";

// It gives the bytes that it has, and then fails.
#[derive(Drop)]
struct Failing<'a> {
    left: &'a [u8],
}

impl Read for Failing<'_> {
    fn read(&mut self, buf: &mut [u8]) -> io::Result<usize> {
        if self.left.is_empty() {
            return Err(io::Error::from(ErrorKind::Other));
        }
        self.left.read(buf)
    }
}

// It takes nothing.
#[derive(Drop)]
struct Full;

impl Write for Full {
    fn write(&mut self, _buf: &[u8]) -> io::Result<usize> {
        Ok(0)
    }

    fn flush(&mut self) -> io::Result<()> {
        Ok(())
    }
}

#[test]
fn what_is_written(rt: HostRuntime) -> Result<(), Fail> {
    let mut out = Vec::new(rt.alloc());
    serve(rt.alloc(), FILE.as_bytes(), &mut out)?;
    assert_eq!(rt;
        out.as_slice(),
        b"2,9,18\nscale,1\nmoney,14\ntable,0,0,0,0,2,0\n".as_slice()
    );
    Ok(())
}

#[test]
fn failing_input_and_output(rt: HostRuntime) {
    let mut out = Vec::new(rt.alloc());
    let failing = Failing {
        left: FILE.as_bytes(),
    };
    assert!(rt; serve(rt.alloc(), failing, &mut out).is_err());
    assert!(rt; out.is_empty());
    assert!(rt; serve(rt.alloc(), FILE.as_bytes(), &mut Full).is_err());
}
