// Tests of the kinds of value, in format 4.4.
#![tactic(auto)]

#[cfg(test)]
mod tests {
    use arithmetic::format::Coefficient;
    use arithmetic::overflow::{Overflow, Saturate, Stop, Wrap};
    use arithmetic::rounding::{Floor, TowardZero};
    use arithmetic::setting::{FixedPoint, Setting};
    use kinds::bounds::BoundKind;
    use kinds::enclosures::EnclosedKind;
    use kinds::kind::Kind;
    use kinds::refusal::Refusal;
    use kinds::values::{Bound, Enclosed, Word};
    use kinds::words::WordKind;
    use std::test::Fail;

    fn setting<R: Copy, O: Copy>(rounding: R, overflow: O) -> Result<FixedPoint<R, O>, Fail> {
        let setting = Setting {
            whole: 4,
            fraction: 4,
            rounding,
            overflow,
        };
        Ok(setting.check()?)
    }

    // 100 + 100 over the enclosed kind.
    fn hundreds<O: Overflow>(s: &FixedPoint<Floor, O>) -> Result<Enclosed, Refusal> {
        let v = EnclosedKind.sample(s, 100)?;
        EnclosedKind.sum(s, v, v)
    }

    #[test]
    fn overflow_moves_both_ends(rt: HostRuntime) -> Result<(), Fail> {
        assert_eq!(rt;
            hundreds(&setting(Floor, Saturate)?),
            Ok(Enclosed {
                word: 127,
                low: 299008,
                high: 299008
            })
        );
        assert_eq!(rt;
            hundreds(&setting(Floor, Wrap)?),
            Ok(Enclosed {
                word: -56,
                low: 1048576,
                high: 1048576
            })
        );
        assert_eq!(rt; hundreds(&setting(Floor, Stop)?), Err(Refusal::Overflow));
        Ok(())
    }

    #[test]
    fn each_product_is_rounded(rt: HostRuntime) -> Result<(), Fail> {
        let s = setting(Floor, Wrap)?;
        let v = WordKind.scale(&s, Coefficient { value: 8 }, WordKind.sample(&s, 1)?)?;
        let sum = WordKind.sum(&s, v, v)?;
        assert_eq!(rt; [v, sum], [Word { word: 0 }; 2]);
        Ok(())
    }

    #[test]
    fn samples_of_the_bound_kind(rt: HostRuntime) -> Result<(), Fail> {
        let s = setting(Floor, Wrap)?;
        let largest = Bound {
            peak: 127,
            ceiling: 0,
        };
        assert_eq!(rt; BoundKind.sample(&s, 127), Ok(largest));
        assert_eq!(rt; BoundKind.sample(&s, -128), Err(Refusal::Peak));
        Ok(())
    }

    // y(n) = 8 × u(n) / 16 - (-8) × y(n-1) / 16
    fn panel<K: Kind, O: Overflow>(
        kind: &K,
        s: &FixedPoint<TowardZero, O>,
        u: K::Value,
        y: K::Value,
    ) -> Result<K::Value, Refusal> {
        let ahead = kind.scale(s, Coefficient { value: 8 }, u)?;
        let back = kind.scale(s, Coefficient { value: -8 }, y)?;
        kind.difference(s, ahead, back)
    }

    #[test]
    fn panel_over_enclosed_values(rt: HostRuntime) -> Result<(), Fail> {
        let s = setting(TowardZero, Wrap)?;
        let zero = EnclosedKind.zero(&s);
        let mut y = panel(&EnclosedKind, &s, EnclosedKind.sample(&s, 64)?, zero)?;
        for word in [32, 16, 8, 4, 2, 1] {
            assert_eq!(rt;
                y,
                Enclosed {
                    word,
                    low: 0,
                    high: 0
                }
            );
            y = panel(&EnclosedKind, &s, zero, y)?;
        }
        assert_eq!(rt;
            y,
            Enclosed {
                word: 0,
                low: 2048,
                high: 2048
            }
        );
        Ok(())
    }

    #[test]
    fn panel_over_bounds(rt: HostRuntime) -> Result<(), Fail> {
        let s = setting(TowardZero, Wrap)?;
        let box_entry = Bound {
            peak: 63,
            ceiling: 16384,
        };
        assert_eq!(rt;
            panel(&BoundKind, &s, BoundKind.sample(&s, 64)?, box_entry),
            Ok(box_entry)
        );
        Ok(())
    }

    #[test]
    fn ends_stay_within_the_limit(rt: HostRuntime) -> Result<(), Fail> {
        let s = setting(Floor, Wrap)?;
        let far = Enclosed {
            word: 0,
            low: -274877906944,
            high: 274877906944,
        };
        assert_eq!(rt;
            EnclosedKind.scale(&s, Coefficient { value: 16 }, far),
            Ok(far)
        );
        assert_eq!(rt;
            EnclosedKind.scale(&s, Coefficient { value: 17 }, far),
            Err(Refusal::End)
        );
        Ok(())
    }
}
