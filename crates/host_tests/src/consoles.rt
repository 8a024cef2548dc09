// Consoles whose input or output fails.
#[cfg(test)]
mod tests {
    use console::play;
    use standard::DateTime;
    use std::fmt::Display;
    use std::io;
    use std::io::{ErrorKind, Read};

    // Gives its bytes, and then fails.
    #[derive(Drop)]
    struct Failing<'a>(&'a [u8]);

    impl Read for Failing<'_> {
        fn read(&mut self, buf: &mut [u8]) -> io::Result<usize> {
            if self.0.is_empty() {
                return Err(io::Error::from(ErrorKind::NotConnected));
            }
            self.0.read(buf)
        }
    }

    // Prints nothing, and fails.
    #[derive(Drop)]
    struct Closed;

    impl Print for Closed {
        fn print<D: Display + Drop>(&self, value: D) -> io::Result<()> {
            Err(io::Error::from(ErrorKind::BrokenPipe))
        }

        fn println<D: Display + Drop>(&self, value: D) -> io::Result<()> {
            Err(io::Error::from(ErrorKind::BrokenPipe))
        }

        fn write_all(&self, bytes: &[u8]) -> io::Result<()> {
            Err(io::Error::from(ErrorKind::BrokenPipe))
        }
    }

    #[test]
    fn failures_are_told(rt: HostRuntime) {
        let failed = play(&rt, DateTime::resource(), Failing(b"plug 0 16\npull 0"));
        assert!(rt; failed.is_err_and(|e| e.kind() == ErrorKind::NotConnected));
        let closed = (Closed, rt.alloc());
        let input: &[u8] = b"plug 0 16\n";
        let failed = play(&closed, DateTime::resource(), input);
        assert!(rt; failed.is_err_and(|e| e.kind() == ErrorKind::BrokenPipe));
    }
}
