// Tests of reading and writing slips.
#![tactic(auto)]

#[cfg(test)]
mod tests {
    use slip::reader::Reader;
    use slip::slip::SlipCall;
    use std::process::Abort;
    use std::test::Fail;
    use tariff::refusal::Refusal;

    const OPENING: [u8; 11] = [b'O', 2, 6, 90, b'T', 1, 2, 3, 31, 28, 31];

    const POST: [u8; 22] = [
        b'P', 0, 7, 1, 0x80, 0, 0, 0, 0, 1, 0, 9, 1, 0, 0, 0, 0, 0, 0, 2, 9, 196,
    ];

    const CORRECTION: [u8; 18] = [
        b'C', 255, 255, 0, 0, 0, 0, 0, 0, 0, 0, 0x10, 0, 0, 0, 0, 0, 1,
    ];

    const STRIKE: [u8; 3] = [b'S', 0, 0];

    const CLOSING: [u8; 6] = [b'M', 0xA0, 255, 254, 3, 32];

    // The number of bytes behind the slip, or its refusal's number and place.
    fn looked_at(bytes: &[u8]) -> Result<usize, (u8, usize)> {
        match (Reader { text: bytes }).read_slip() {
            Ok(read) => Ok(read.rest.len()),
            Err(fault) => {
                let Refusal { number, place } = fault.into();
                Err((number, usize::from(place)))
            }
        }
    }

    // A slip is read where it is whole, and cut at every byte it is refused at the number of bytes that are there.
    fn cut_everywhere(rt: &impl Abort, slip: &[u8]) {
        assert_eq!(rt; looked_at(slip), Ok(0));
        assert_eq!(rt; looked_at(&slip[..0]), Err((1, 0)));
        for length in 1..slip.len() {
            assert_eq!(rt; looked_at(&slip[..length]), Err((3, length)));
        }
    }

    #[test]
    fn a_slip_that_is_cut_is_refused_at_its_end(rt: HostRuntime) {
        cut_everywhere(&rt, &OPENING);
        cut_everywhere(&rt, &POST);
        cut_everywhere(&rt, &CORRECTION);
        cut_everywhere(&rt, &STRIKE);
        cut_everywhere(&rt, &CLOSING);
    }

    // A slip of up to 32 bytes that is read and written again is as it was.
    fn read_and_written(rt: &impl Abort, slip: &[u8]) -> Result<(), Fail> {
        let read = (Reader { text: slip }).read_slip()?;
        let mut out = [0; 32];
        let count = SlipCall::from(&read.slip).write(&mut out)?;
        assert_eq!(rt; out.get(..count), Some(slip));
        Ok(())
    }

    #[test]
    fn a_slip_is_written_as_it_was_read(rt: HostRuntime) -> Result<(), Fail> {
        read_and_written(&rt, &OPENING)?;
        read_and_written(&rt, &POST)?;
        read_and_written(&rt, &CORRECTION)?;
        read_and_written(&rt, &STRIKE)?;
        read_and_written(&rt, &CLOSING)
    }

    // What is read of a slip, of up to 32 bytes, with another byte at a place.
    fn changed(slip: &[u8], place: usize, byte: u8) -> Result<usize, (u8, usize)> {
        let mut bytes = [0; 32];
        let end = slip.len().min(32);
        bytes[..end].copy_from_slice(&slip[..end]);
        if place < 32 {
            bytes[place] = byte;
        }
        looked_at(&bytes[..end])
    }

    #[test]
    fn each_faulty_byte_is_refused_at_its_place(rt: HostRuntime) {
        assert_eq!(rt; changed(&STRIKE, 0, b's'), Err((2, 0)));
        assert_eq!(rt; changed(&CLOSING, 1, 0xA1), Err((4, 1)));
        assert_eq!(rt; changed(&CLOSING, 1, 0xB0), Err((4, 1)));
        assert_eq!(rt; changed(&POST, 3, 2), Err((6, 3)));
        assert_eq!(rt; changed(&CORRECTION, 3, 255), Err((6, 3)));
        assert_eq!(rt; changed(&OPENING, 7, 0), Err((7, 7)));
        assert_eq!(rt; changed(&OPENING, 7, 13), Err((7, 7)));
        assert_eq!(rt; changed(&OPENING, 7, 12), Err((3, 11)));
        assert_eq!(rt; changed(&OPENING, 7, 2), Ok(1));
    }

    #[test]
    fn the_earliest_faulty_byte_decides(rt: HostRuntime) {
        assert_eq!(rt; looked_at(b"x"), Err((2, 0)));
        assert_eq!(rt; looked_at(&[b'M', 1]), Err((4, 1)));
        assert_eq!(rt; looked_at(&[b'M', 0x80]), Err((3, 2)));
        assert_eq!(rt; looked_at(&[b'M', 0x80, 0]), Err((3, 3)));
        assert_eq!(rt; looked_at(&[b'M', 0xC0, 0, 0, 0, 0]), Err((5, 2)));
        assert_eq!(rt; looked_at(&[b'M', 0xC0, 0, 1, 0, 0]), Err((5, 4)));
        assert_eq!(rt; looked_at(&[b'P', 0, 0]), Err((3, 3)));
        assert_eq!(rt; looked_at(&[b'P', 0, 0, 2]), Err((6, 3)));
        assert_eq!(rt;
            looked_at(&[b'P', 0, 0, 0, 0x80, 0, 0, 0, 0, 0, 0, 0]),
            Err((5, 10))
        );
        assert_eq!(rt; looked_at(&[b'O', 9, 0, 0, b'?', 0, 0, 0]), Err((7, 7)));
    }
}
