//! The worked figures of docs/RULES.md: all of them in one statement about the definitions, and each as a test of the code.
#![tactic(auto)]

ghost use Rattle.figures.specs.Worked.{WorkedFigures};

// The definitions that the contracts cite compute the worked figures.
pub fn worked_figures()
    ensures { WorkedFigures }
{}

#[cfg(test)]
mod sheets;
#[cfg(test)]
mod whole_tally;

#[cfg(test)]
mod tests {
    use kinds::{Byte, Code, Kind, Small, Wide};
    use sharing::Refusal;

    fn shares<K: Kind>(figure: Code, strip: &[Code]) -> [Code; 3] {
        [1, 2, 3].map(|seat| sharing::share::<K>(figure, strip, seat))
    }

    #[test]
    fn small_shares_and_weights(rt: HostRuntime) {
        assert_eq!(rt; shares::<Small>(4, &[5]), [9, 14, 19]);
        let mut three = [0; 3];
        assert_eq!(rt; sharing::weigh::<Small>(&mut three), Ok(()));
        assert_eq!(rt; three, [3, 28, 1]);
        let mut five = [0; 5];
        assert_eq!(rt; sharing::weigh::<Small>(&mut five), Ok(()));
        assert_eq!(rt; five, [5, 21, 10, 26, 1]);
    }

    #[test]
    fn byte_products_and_shares(rt: HostRuntime) {
        // the examples of FIPS 197, and a reciprocal
        for (a, b, product) in [
            (0x57, 0x83, 0xc1),
            (0x57, 0x13, 0xfe),
            (0x57, 0x02, 0xae),
            (0x57, 0x04, 0x47),
            (0x57, 0x08, 0x8e),
            (0x57, 0x10, 0x07),
            (0x02, 0x8d, 0x01),
        ] {
            assert_eq!(rt; Byte::product(a, b), product);
        }
        assert_eq!(rt; shares::<Byte>(0x53, &[0x57]), [0x04, 0xfd, 0xaa]);
    }

    #[test]
    fn wide_square_and_reciprocal(rt: HostRuntime) {
        assert_eq!(rt; Wide::product(2147483646, 2147483646), 1);
        assert_eq!(rt; Wide::reciprocal(2, 0), 1073741824);
    }

    // A total and a refusal are told apart even where their numbers are equal: here both are 19.
    #[test]
    fn rebuilding(rt: HostRuntime) {
        assert_eq!(rt; sharing::rebuild::<Small>(2, &[1, 3], &[9, 19]), Ok(4));
        assert_eq!(rt;
            sharing::rebuild::<Small>(2, &[1, 2, 3], &[9, 14, 18]).map_err(Refusal::number),
            Err(19)
        );
        assert_eq!(rt;
            sharing::rebuild::<Small>(2, &[1, 3], &[19, 19]).map_err(Refusal::number),
            Ok(19)
        );
    }

    // Five seats, threshold 3, remainders by 31: the polynomials 3 + x + x² and 7 + x + x².
    #[test]
    fn product_by_weights(rt: HostRuntime) {
        let mut weights = [0; 5];
        assert_eq!(rt; sharing::weigh::<Small>(&mut weights), Ok(()));
        let products = [1, 2, 3, 4, 5].map(|seat| {
            let a = sharing::share::<Small>(3, &[1, 1], seat);
            let b = sharing::share::<Small>(7, &[1, 1], seat);
            Small::product(a, b)
        });
        assert_eq!(rt; sharing::recombine::<Small>(&weights, &products), 21);
    }
}
