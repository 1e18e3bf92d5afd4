#![tactic(auto)]

// Tests of `claim_file`: each fault with its line, and what is read of texts that have none.
#[cfg(test)]
mod tests {
    use claim_file::{ClaimFile, FieldName, ReadFault, read};
    use std::alloc::{AllocError, Global};
    use std::test::Fail;

    const SAMPLE: &[u8] =
        b"# a comment\nfield gf256\nm 2   n 1\nmatrix 5 1 2 3\n       1 0 0 1   # second row\nvector 31 8\nleft 2\nright 3\nout 6\n";

    // The claim with this heading and these lists.
    fn claim(
        heap: Global,
        field: FieldName,
        (m, n): (u32, u32),
        [matrix, vector, left, right, out]: [&[u32]; 5],
    ) -> Result<ClaimFile, AllocError> {
        Ok(ClaimFile {
            field,
            m,
            n,
            matrix: Vec::from_slice(heap, matrix)?,
            vector: Vec::from_slice(heap, vector)?,
            left: Vec::from_slice(heap, left)?,
            right: Vec::from_slice(heap, right)?,
            out: Vec::from_slice(heap, out)?,
        })
    }

    #[test]
    fn sample(rt: HostRuntime) -> Result<(), Fail> {
        let heap = rt.alloc();
        let expected = claim(
            heap,
            FieldName::Gf256,
            (2, 1),
            [&[5, 1, 2, 3, 1, 0, 0, 1], &[31, 8], &[2], &[3], &[6]],
        )?;
        let other = claim(
            heap,
            FieldName::Gf256,
            (2, 1),
            [&[5, 1, 2, 3, 1, 0, 0, 1], &[31, 8], &[2], &[3], &[7]],
        )?;
        assert_eq!(rt; read(heap, SAMPLE)?, expected);
        assert_ne!(rt; read(heap, SAMPLE)?, other);
        Ok(())
    }

    #[test]
    fn carriage_returns_and_tabs(rt: HostRuntime) -> Result<(), Fail> {
        let heap = rt.alloc();
        let text =
            b"field\tmersenne31\r\nm 0\r\nn 4294967295\r\nmatrix 0 2147483646\r\nvector\r\nleft\r\nright\r\nout\r\n";
        let expected = claim(
            heap,
            FieldName::Mersenne31,
            (0, 4294967295),
            [&[0, 2147483646], &[], &[], &[], &[]],
        )?;
        assert_eq!(rt; read(heap, text)?, expected);
        Ok(())
    }

    #[test]
    fn hexadecimal(rt: HostRuntime) -> Result<(), Fail> {
        let heap = rt.alloc();
        let text =
            b"field gf256 m 0x1F n 0x0 matrix 0xfF 00000007 0x00000000000000000Ab vector left right out 255";
        let expected = claim(
            heap,
            FieldName::Gf256,
            (31, 0),
            [&[255, 7, 171], &[], &[], &[], &[255]],
        )?;
        assert_eq!(rt; read(heap, text)?, expected);
        Ok(())
    }

    #[test]
    fn comments(rt: HostRuntime) -> Result<(), Fail> {
        let heap = rt.alloc();
        let text =
            b"field#x\ngf256#gf256 # m\nm 1#n\nn 2 matrix 1#2\n#\n3 vector left right out # 4";
        let expected = claim(
            heap,
            FieldName::Gf256,
            (1, 2),
            [&[1, 3], &[], &[], &[], &[]],
        )?;
        assert_eq!(rt; read(heap, text)?, expected);
        Ok(())
    }

    #[test]
    fn unexpected_words(rt: HostRuntime) {
        let heap = rt.alloc();
        assert_eq!(rt;
            read(heap, b"# x\n\nfields gf256"),
            Err(ReadFault::UnexpectedWord { line: 3 })
        );
        assert_eq!(rt;
            read(heap, b"field\ngf257"),
            Err(ReadFault::UnexpectedWord { line: 2 })
        );
        assert_eq!(rt;
            read(heap, b"field gf256\nm\n\nn 1"),
            Err(ReadFault::UnexpectedWord { line: 4 })
        );
        assert_eq!(rt;
            read(heap, b"field gf256 m 1 n 1 matrix 1 left"),
            Err(ReadFault::UnexpectedWord { line: 1 })
        );
        assert_eq!(rt;
            read(heap, b"field gf256 m 1 n 1\nmatrix 1\n0x vector"),
            Err(ReadFault::UnexpectedWord { line: 3 })
        );
        assert_eq!(rt;
            read(heap, b"field gf256 m 1 n 1\nmatrix 0X1"),
            Err(ReadFault::UnexpectedWord { line: 2 })
        );
        assert_eq!(rt;
            read(
                heap,
                b"field gf256 m 1 n 1 matrix vector left right out\n1 out"
            ),
            Err(ReadFault::UnexpectedWord { line: 2 })
        );
    }

    #[test]
    fn too_large(rt: HostRuntime) {
        let heap = rt.alloc();
        assert_eq!(rt;
            read(heap, b"field gf256\nm 4294967296 n x"),
            Err(ReadFault::TooLarge { line: 2 })
        );
        assert_eq!(rt;
            read(heap, b"field gf256 m 1 n 1 matrix 255\n256 x"),
            Err(ReadFault::TooLarge { line: 2 })
        );
        assert_eq!(rt;
            read(heap, b"field mersenne31 m 1 n 1 matrix 2147483647"),
            Err(ReadFault::TooLarge { line: 1 })
        );
        assert_eq!(rt;
            read(
                heap,
                b"field gf256 m 1 n 1 matrix vector left right out\n\n1234567890123456789012345678901234567890123456789012345678901234567890123456789012345678901234567890"
            ),
            Err(ReadFault::TooLarge { line: 3 })
        );
    }

    #[test]
    fn unfinished(rt: HostRuntime) {
        let heap = rt.alloc();
        assert_eq!(rt; read(heap, b""), Err(ReadFault::Unfinished { line: 1 }));
        assert_eq!(rt;
            read(heap, b"field"),
            Err(ReadFault::Unfinished { line: 1 })
        );
        assert_eq!(rt;
            read(heap, b"field gf256\n"),
            Err(ReadFault::Unfinished { line: 1 })
        );
        assert_eq!(rt;
            read(heap, b"field gf256\nm 1 # n"),
            Err(ReadFault::Unfinished { line: 2 })
        );
        assert_eq!(rt;
            read(
                heap,
                b"field gf256 m 1 n 1 matrix 1\nvector 2\nleft 3\nright 4\n\n"
            ),
            Err(ReadFault::Unfinished { line: 5 })
        );
    }

    #[test]
    fn numbers_and_lines(rt: HostRuntime) {
        assert_eq!(rt; ReadFault::UnexpectedWord { line: 7 }.number(), 71);
        assert_eq!(rt; ReadFault::TooLarge { line: 7 }.number(), 72);
        assert_eq!(rt; ReadFault::Unfinished { line: 7 }.line(), Some(7));
        assert_eq!(rt; ReadFault::NoMemory.number(), 74);
        assert_eq!(rt; ReadFault::NoMemory.line(), None);
    }

    #[test]
    fn texts(rt: HostRuntime) -> Result<(), Fail> {
        let heap = rt.alloc();
        let fault = ReadFault::TooLarge { line: 7 };
        assert_eq!(rt; fault.to_string(heap)?.as_str(), "this number is too large");
        assert_eq!(rt;
            FieldName::Mersenne31.to_string(heap)?.as_str(),
            "mersenne31"
        );
        Ok(())
    }
}
