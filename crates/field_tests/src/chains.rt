use crate::cases::{holds, is};
use field::chains::{
    Factor, inverses_of_chains, multiply_back, multiply_chains, product_of_chains, whole_chains,
};
use field::{F7, Field, PrimeCharacteristicRing, refill};

#[test]
fn a_list_is_inverted_by_four_chains(rt: HostRuntime) {
    let xs = [2, 3, 4, 5, 6, 1].map(F7::new);
    let mut products = [F7::ONE; 6];
    multiply_chains::<F7, F7>(&xs, &mut products);
    is(&rt, "the product before place 4", products[4], F7::new(2));
    is(&rt, "the product before place 5", products[5], F7::new(3));
    let chains = whole_chains::<F7, F7>(&xs, &products);
    is(&rt, "the third chain", chains.third, F7::new(5));
    let whole = product_of_chains::<F7, F7>(&chains);
    is(&rt, "the product", whole, F7::new(6));
    match whole.try_inverse() {
        Some(inverse) => {
            let inverses = inverses_of_chains::<F7, F7>(&chains, inverse);
            is(
                &rt,
                "the inverse of the third chain",
                inverses.third,
                F7::new(3),
            );
            multiply_back::<F7, F7>(&xs, &mut products, &inverses);
        }
        None => holds(&rt, "the product has an inverse", false),
    }
    holds(&rt, "inverses", products == [4, 5, 2, 3, 6, 1].map(F7::new));
}

#[test]
fn an_element_is_kept_as_it_is(rt: HostRuntime) {
    is(&rt, "one", <F7 as Factor<F7>>::one(), F7::ONE);
    let five = <F7 as Factor<F7>>::of(F7::new(5));
    is(&rt, "five", five.keep(), F7::new(5));
}

#[test]
fn a_list_is_filled_again(rt: HostRuntime) {
    let mut list = Vec::new(rt.alloc());
    for n in [3usize, 5, 0, 2] {
        holds(&rt, "there is memory", refill(&mut list, n, n).is_ok());
        holds(&rt, "length", list.len() == n);
        holds(&rt, "items", list.iter().all(|x| *x == n));
    }
}
