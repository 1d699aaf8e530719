#[cfg(test)]
mod tests {
    use design::fault::{Fault, Reason};
    use throws::source::{Listed, Source, Xorshift32};
    use throws::throw::throw;

    #[test]
    fn passes_over_the_top_words(rt: HostRuntime) {
        let words = [4_294_967_292, 4_294_967_291, 7];
        let mut source = Listed::new(&words);
        let answers = [
            throw(&mut source, 6),
            throw(&mut source, 6),
            throw(&mut source, 6),
        ];
        assert_eq!(rt; answers, [Ok(5), Ok(1), Err(Fault::of(Reason::Dry))]);
    }

    #[test]
    fn dry_uses_up_the_words(rt: HostRuntime) {
        let words = [4_294_967_295, 4_294_967_295];
        let mut source = Listed::new(&words);
        assert_eq!(rt;
            (throw(&mut source, 6), source.word()),
            (Err(Fault::of(Reason::Dry)), None)
        );
    }

    #[test]
    fn ways_out_of_range_take_no_word(rt: HostRuntime) {
        let words = [8, 9];
        let mut source = Listed::new(&words);
        let refused = Err(Fault::of(Reason::WaysOutOfRange));
        assert_eq!(rt;
            [throw(&mut source, 0), throw(&mut source, 10_240_001)],
            [refused, refused]
        );
        assert_eq!(rt;
            [throw(&mut source, 10_240_000), throw(&mut source, 1)],
            [Ok(8), Ok(0)]
        );
        assert_eq!(rt; source.word(), None);
    }

    #[test]
    fn words_of_the_generator(rt: HostRuntime) {
        let mut source = Xorshift32::new(1, 2);
        assert_eq!(rt;
            [source.word(), source.word(), source.word()],
            [Some(270_369), Some(67_634_689), None]
        );
        let mut none = Xorshift32::new(0, 5);
        assert_eq!(rt; none.word(), None);
    }
}
