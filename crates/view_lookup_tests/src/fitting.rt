//! Which rows fit the first rows of two bases: each deed once where it fits and once where it does not, but the publish whose
//! outputs stand in the file of objects, which never fits.

use crate::asked::assert_fits;
use std::test::Fail;

// Private files and objects.
const FILES: &str = "\
mkview v
put v a old
mkview w
put w a of_w
put v a new
publish v *2 out log echo; *0 *2 built done
publish w *2 out a.o echo; *0 *2 other code
rmview w
mkview w
";

const FIT_FILES: &str = "\
1 mkview v => true
8 mkview x => true
8 mkview v => false
3 mkview w => true
9 mkview w => true
1 put v a text => false
2 put v a text => true
8 put v a text => true
8 put w a/b text => true
8 put x a text => false
8 wink v #7 => true
8 wink v #5 => false
8 wink x #7 => false
8 drop v out => true
8 drop v a => false
9 scrub *1 #7 => true
8 scrub *1 #7 => false
9 scrub *1 #6 => false
9 scrub *2 #6 #7 => false
9 scrub *1 #5 => false
1 publish v *2 x y echo; *1 a #0 *2 one two => false
2 publish v *2 x y echo; *1 a #0 *2 one two => true
8 publish x *2 x y echo; *1 a #0 *2 one two => false
8 publish v *2 x y echo; *1 a #2 *2 one two => true
8 publish v *2 x y echo; *1 a #1 *2 one two => false
3 publish v *2 x y echo; *1 a #2 *2 one two => true
2 publish v *2 x y echo; *1 a #2 *2 one two => false
8 publish w *2 x y echo; *1 out #6 *2 one two => true
8 publish w *2 x y echo; *1 log #6 *2 one two => true
8 publish w *2 x y echo; *1 log #7 *2 one two => false
8 publish w *2 x y echo; *1 out #8 *2 one two => false
8 publish w *2 x y echo; *1 out #18446744073709551615 *2 one two => false
8 publish v *2 x y echo; *2 a #2 out #5 *2 one two => true
8 publish v *2 x y echo; *2 a #2 out #3 *2 one two => false
8 publishat v *2 x y echo; *0 *2 :1 #0 #3 :0 two => false
";

// The directory `d` is element 3, with the file `f`, element 4. The view `v` names that anew in its checkout of `d`. `w` checks
// in a version of it and begins a branch of it, and `x` checks in another version while `v` has it out.
const ELEMENTS: &str = "\
mkview v
checkout v #0 #0 :1
mkelem v #0 d :2 :1
mkelem v #3 f :1 :1
save v #4 one
checkin v #4
checkin v #3
checkin v #0
mkview w
mktype :1 REL
label REL #4 #6
checkout w #4 #6 :1
save w #4 two
checkin w #4
label REL #4 #14
unlabel REL #4
checkout v #3 #7 :1
mv v #3 f g
mkelem v #3 h :1 :0
rmname v #3 h
mktype :2 fix
branch w #4 #6 fix :1
put v p text
checkout v #4 #14 :0
mkview x
checkout x #4 #14 :1
checkin x #4
put w d/f mine
setcs x element_*_.../fix/LATEST;element_*_/main/LATEST;
";

const FIT_ELEMENTS: &str = "\
24 mkelem v #3 n :1 :0 => true
24 mkelem v #3 n :2 :1 => true
24 mkelem v #3 f :1 :0 => true
24 mkelem v #3 g :1 :0 => false
24 mkelem w #3 n :1 :0 => false
24 mkelem w #4 n :1 :0 => false
24 mkelem x #3 n :1 :0 => false
24 rmname v #3 g => true
24 rmname v #3 f => false
24 rmname w #3 f => false
25 rmname v #3 g => false
24 mv v #3 g k => true
24 mv v #3 f k => false
24 mv v #3 g g => false
24 mv w #3 f k => false
24 checkout v #4 #14 :1 => true
24 checkout v #4 #6 :1 => false
24 checkout v #4 #7 :1 => false
24 checkout w #4 #14 :1 => false
24 checkout x #4 #14 :1 => false
13 checkout v #4 #6 :0 => true
13 checkout v #4 #6 :1 => false
22 branch w #4 #6 fix :1 => true
22 branch w #4 #14 fix :0 => true
21 branch w #4 #6 fix :1 => false
22 branch w #4 #7 fix :1 => false
22 branch w #4 #6 REL :1 => false
22 branch x #4 #6 fix :1 => false
24 branch v #4 #14 fix :0 => false
24 branch v #3 #7 fix :0 => false
24 branch w #3 #7 fix :0 => true
24 save w #4 three => true
24 save v #4 three => false
24 save v #3 three => false
24 checkin v #3 => true
24 checkin v #4 => false
26 checkin v #4 => true
27 checkin v #4 => false
27 checkin x #4 => true
28 checkin v #4 => false
24 uncheckout v #3 => true
24 uncheckout w #3 => false
24 mktype :1 NEW => true
24 mktype :2 NEW => true
24 mktype :2 REL => false
24 mktype :1 main => false
24 label REL #4 #6 => true
24 label fix #4 #6 => false
24 label REL #4 #7 => false
16 unlabel REL #4 => true
17 unlabel REL #4 => false
24 labels REL *2 #3 #7 #4 #6 => true
24 labels REL *2 #3 #6 #4 #6 => false
24 labels fix *1 #4 #6 => false
24 arrow #4 #6 #14 => true
24 arrow #4 #6 #6 => false
24 arrow #4 #6 #7 => false
24 arrow #4 #7 #14 => false
24 mkview x => true
24 mkview v => false
24 rmview w => true
24 rmview x => false
24 setcs v element_*_/main/LATEST; => true
24 setcs v element => false
24 setcs v element_*_/main/LATEST => true
24 setcs v element_*_/main/LATEST;element => false
24 setcs x element_*_/main/LATEST; => false
24 put v q text => true
24 put x q text => false
24 rm v p => true
24 rm w p => false
24 publish v *2 x y echo; *1 d/f #4 *2 one two => true
24 publish v *2 x y echo; *1 d/f #5 *2 one two => true
24 publish v *2 x y echo; *1 d/f #12 *2 one two => true
24 publish v *2 x y echo; *1 d/f #14 *2 one two => true
24 publish v *2 x y echo; *1 d/f #22 *2 one two => true
24 publish v *2 x y echo; *1 d/f #3 *2 one two => false
24 publish v *2 x y echo; *1 d/f #7 *2 one two => false
24 publish v *2 x y echo; *1 d/f #10 *2 one two => false
24 publish v *2 x y echo; *1 d/f #17 *2 one two => false
";

#[test]
fn rows_fit_where_they_may_be_the_next(rt: HostRuntime) -> Result<(), Fail> {
    assert_fits(&rt, rt.alloc(), FILES, FIT_FILES)?;
    assert_fits(&rt, rt.alloc(), ELEMENTS, FIT_ELEMENTS)
}
